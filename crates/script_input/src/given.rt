// The parameters and cookies of a request.
ghost use Rattle.std.specs.Prelude.{◌≡◌, ◌<◌, length, IfSome, IfOk, OnOk};
ghost use Rattle.php_values.specs.Data.{array_of, array_pairs, data_pairs};
ghost use Rattle.order_map.specs.Arrays.{pairs_of};
ghost use Rattle.request_map.specs.Routes.{query_at};
ghost use Rattle.parameters.specs.Nested.{set_over};
ghost use Rattle.script_input.specs.Inputs as spec;

use crate::form::is_form;
use order_map::OrderMap;
use parameters::{add_cookies, parameters, set_over};
use php_values::{Value, copied};
use reply_text::HeaderLine;
use request_map::WebRequest;
use std::alloc::{AllocError, Global};

fn query_at(target: &[u8]) -> Option<usize>
    ensures place { result ≡ query_at target.now }
    ensures within { IfSome result (λ place. place < length target.now) }
{
    target.iter().position(|&byte| byte == b'?')
}

/// What stands behind the first `?` of a target.
pub fn query_of(target: &[u8]) -> &[u8]
    ensures { result.now ≡ spec.query_of target.now }
{
    match query_at(target) {
        Some(place) => target.split_at(place + 1).1,
        None => &[],
    }
}

/// `$_GET`: the parameters of the query.
pub fn get_of(alloc: Global, request: &WebRequest) -> Result<OrderMap<Value>, AllocError>
    ensures { IfOk result (λ map. array_of map ≡ spec.get_of request.now) }
{
    let map = parameters(alloc, query_of(request.target()))?;
    Ok(map)
}

/// `$_POST`: the parameters of the body, where it is a form.
pub fn post_of(alloc: Global, request: &WebRequest) -> Result<OrderMap<Value>, AllocError>
    ensures { IfOk result (λ map. array_of map ≡ spec.post_of request.now) }
{
    if !is_form(request.headers()) {
        return Ok(OrderMap::new(alloc));
    }
    let map = parameters(alloc, request.body())?;
    Ok(map)
}

// Adds the cookies of a header, if it is a `Cookie`.
fn add_line(alloc: Global, map: &mut OrderMap<Value>, header: &HeaderLine) -> Result<(), AllocError>
    ensures { OnOk result (array_of map.new ≡ spec.with_line header.now (array_of map.old)) }
{
    if header.is_named(b"cookie") {
        add_cookies(alloc, map, header.value())?;
    }
    Ok(())
}

fn add_lines(
    alloc: Global,
    map: &mut OrderMap<Value>,
    headers: &[HeaderLine],
) -> Result<(), AllocError>
    ensures { OnOk result (array_of map.new ≡ spec.with_lines headers.now (array_of map.old)) }
{
    for header in headers {
        add_line(alloc, map, header)?;
    }
    Ok(())
}

/// `$_COOKIE`: the cookies of all `Cookie` headers.
pub fn cookie_of(alloc: Global, request: &WebRequest) -> Result<OrderMap<Value>, AllocError>
    ensures { IfOk result (λ map. array_of map ≡ spec.cookie_of request.now) }
{
    let mut map = OrderMap::new(alloc);
    add_lines(alloc, &mut map, request.headers())?;
    Ok(map)
}

/// `$_REQUEST`: the pairs of `$_POST` set over those of `$_GET`.
pub fn request_of(
    get: &OrderMap<Value>,
    post: &OrderMap<Value>,
) -> Result<OrderMap<Value>, AllocError>
    ensures { IfOk result (λ map. array_of map ≡ set_over (array_pairs (array_of post.now)) (array_of get.now)) }
{
    let mut map = copied(get)?;
    set_over(&mut map, post)?;
    Ok(map)
}
