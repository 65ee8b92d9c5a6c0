// The file that a request asks for.
ghost use Rattle.std.specs.Prelude.{◌≡◌, ◌≤◌, true, false, length, IfOk, IfSome, IfNone};
ghost use Rattle.request_map.specs.Routes as spec;

use crate::request::WebRequest;
use std::alloc::{AllocError, Global};

/// The file that a request asks for.
#[derive(Debug, Drop)]
pub enum Route {
    /// A script, by its path.
    Script(String),
    /// A static file, by its number from 0.
    Static(usize),
    NotFound,
}

fn query_at(target: &[u8]) -> Option<usize>
    ensures place { result ≡ spec.query_at target.now }
    ensures within { IfSome result (λ place. place ≤ length target.now) }
{
    target.iter().position(|&byte| byte == b'?')
}

fn before_query(target: &[u8]) -> &[u8]
    ensures { result.now ≡ spec.before_query target.now }
{
    match query_at(target) {
        Some(place) => target.split_at(place).0,
        None => target,
    }
}

fn without_slash(path: &[u8]) -> &[u8]
    ensures { result.now ≡ spec.without_slash path.now }
{
    match path {
        [b'/', rest @ ..] => rest,
        _ => path,
    }
}

/// The path of the file that a target names: what stands before the first `?`, percent-decoded, without its first `/`;
/// where nothing or a `/` is last, `index.php` is added.
pub fn file_path(alloc: Global, target: &[u8]) -> Result<Vec<u8>, AllocError>
    ensures { IfOk result (λ path. path.items ≡ spec.file_path target.now) }
{
    let mut decoded = Vec::new(alloc);
    percent_encoding::percent_decode(before_query(target)).append_to(&mut decoded)?;
    let mut path = Vec::from_slice(alloc, without_slash(&decoded))?;
    if path.is_empty() || path.ends_with(b"/") {
        path.extend_from_slice(b"index.php")?;
    }
    Ok(path)
}

fn is_at(file: &String, path: &[u8]) -> bool
    ensures { result ≡ spec.is_at path.now file.now }
{
    file.as_bytes() == path
}

fn find_script<'s>(scripts: &'s [String], path: &[u8]) -> Option<&'s String>
    ensures found { IfSome result (λ script. spec.is_script scripts.now path.now ≡ true) }
    ensures at { IfSome result (λ script. spec.is_at path.now script.now ≡ true) }
    ensures none { IfNone result (spec.is_script scripts.now path.now ≡ false) }
{
    for script in scripts {
        if is_at(script, path) {
            return Some(script);
        }
    }
    None
}

fn find_static(statics: &[(String, Vec<u8>)], path: &[u8]) -> Option<usize>
    ensures { result ≡ spec.static_at statics.now path.now }
{
    statics.iter().position(|file| file.0.as_bytes() == path)
}

fn find_route(
    alloc: Global,
    scripts: &[String],
    statics: &[(String, Vec<u8>)],
    path: &[u8],
) -> Result<Route, AllocError>
    ensures { IfOk result (spec.IsRoute scripts.now statics.now path.now) }
{
    match find_script(scripts, path) {
        Some(script) => {
            let script = script.clone()?;
            Ok(Route::Script(script))
        }
        None => match find_static(statics, path) {
            Some(number) => Ok(Route::Static(number)),
            None => Ok(Route::NotFound),
        },
    }
}

/// The file that a request asks for, among the paths of scripts and the static files.
pub fn route_of(
    alloc: Global,
    scripts: &[String],
    statics: &[(String, Vec<u8>)],
    request: &WebRequest,
) -> Result<Route, AllocError>
    ensures { IfOk result (spec.IsRoute scripts.now statics.now (spec.file_path request.now.head.target)) }
{
    let path = file_path(alloc, request.target())?;
    let route = find_route(alloc, scripts, statics, &path)?;
    Ok(route)
}
