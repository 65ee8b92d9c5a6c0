// The file that a request asks for.
ghost use Rattle.std.specs.Prelude.{◌≡◌, true, false, IfOk, IfSome, IfNone, string_bytes};
ghost use Rattle.std.specs.List.{list_any};
ghost use Rattle.request_map.specs.Routes.{file_path, static_at, is_script as is_script_among};
ghost use Rattle.role_copies.specs.Alike.{script_paths};
ghost use Rattle.role_copies.specs.Kept.{IsRouteOfAll};

use crate::alike::is_script;
use crate::copies::Copies;
use app_load::AppFile;
use request_map::{Route, WebRequest, file_path};
use std::alloc::{AllocError, Global};

// The PHP file at a path.
fn script_at<'f>(files: &'f [AppFile], path: &[u8]) -> Option<&'f AppFile>
    ensures found { IfSome result (λ file. is_script_among (script_paths files.now) path.now ≡ true) }
    ensures at { IfSome result (λ file. string_bytes file.now.path ≡ path.now) }
    ensures none { IfNone result (is_script_among (script_paths files.now) path.now ≡ false) }
{
    for file in files {
        if is_script(file) && file.path.as_bytes() == path {
            return Some(file);
        }
    }
    None
}

fn static_at(statics: &[(String, Vec<u8>)], path: &[u8]) -> Option<usize>
    ensures { result ≡ static_at statics.now path.now }
{
    statics.iter().position(|file| file.0.as_bytes() == path)
}

// The file at a path.
fn route_at(alloc: Global, copies: &Copies, path: &[u8]) -> Result<Route, AllocError>
    ensures { IfOk result (IsRouteOfAll copies.now.programs.items copies.now.statics.items path.now) }
{
    match script_at(copies.programs[0].files(), path) {
        Some(script) => Ok(Route::Script(script.path.clone()?)),
        None => match static_at(&copies.statics, path) {
            Some(number) => Ok(Route::Static(number)),
            None => Ok(Route::NotFound),
        },
    }
}

/// The file of the copies that a request asks for: a script by its path, a static file by its number in `statics`, or
/// none. It is the same in each program.
pub fn route(alloc: Global, copies: &Copies, request: &WebRequest) -> Result<Route, AllocError>
    ensures { IfOk result (IsRouteOfAll copies.now.programs.items copies.now.statics.items (file_path request.now.head.target)) }
{
    let path = file_path(alloc, request.target())?;
    let route = route_at(alloc, copies, &path)?;
    Ok(route)
}
