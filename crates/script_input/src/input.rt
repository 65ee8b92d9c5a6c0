// All that a script is given.
ghost use Rattle.std.specs.Prelude.{◌≡◌, ◌≤◌, IfOk, string_bytes};
ghost use Rattle.php_values.specs.Data.{array_of};
ghost use Rattle.script_input.specs.Inputs as spec;

use crate::given::{cookie_of, get_of, post_of, request_of};
use crate::server::server_of;
use less_outside::MAX_MOMENT;
use php_values::ArrayValue;
use request_map::WebRequest;
use std::alloc::{AllocError, Global};

/// What a script is given: its path, and the arrays `$_GET`, `$_POST`, `$_COOKIE`, `$_REQUEST` and `$_SERVER`.
#[derive(Drop)]
pub struct ScriptInput {
    pub script: String,
    pub get: ArrayValue,
    pub post: ArrayValue,
    pub cookie: ArrayValue,
    pub request: ArrayValue,
    pub server: ArrayValue,
}

/// What a script is given of a request at a moment, in seconds since 1970.
pub fn script_input(
    alloc: Global,
    request: &WebRequest,
    script: &str,
    moment: u64,
) -> Result<ScriptInput, AllocError>
    requires { moment ≤ MAX_MOMENT }
    ensures script { IfOk result (λ input. string_bytes input.script ≡ script.now) }
    ensures get { IfOk result (λ input. array_of input.get.map.value ≡ spec.get_of request.now) }
    ensures post { IfOk result (λ input. array_of input.post.map.value ≡ spec.post_of request.now) }
    ensures cookie { IfOk result (λ input. array_of input.cookie.map.value ≡ spec.cookie_of request.now) }
    ensures request { IfOk result (λ input. array_of input.request.map.value ≡ spec.request_of request.now) }
    ensures server { IfOk result (λ input. array_of input.server.map.value ≡ spec.server_of request.now script.now moment) }
{
    let get = get_of(alloc, request)?;
    let post = post_of(alloc, request)?;
    let both = request_of(&get, &post)?;
    let cookie = cookie_of(alloc, request)?;
    let server = server_of(alloc, request, script.as_bytes(), moment)?;
    let script = String::from_str(alloc, script)?;
    Ok(ScriptInput {
        script,
        get: ArrayValue::new(alloc, get)?,
        post: ArrayValue::new(alloc, post)?,
        cookie: ArrayValue::new(alloc, cookie)?,
        request: ArrayValue::new(alloc, both)?,
        server: ArrayValue::new(alloc, server)?,
    })
}
