ghost use Rattle.std.specs.Prelude.{◌≡◌, IfOk, drop};
ghost use Rattle.desk_requests.specs.Paths.{route_at, route_of, the_paths};

use crate::paths::Path;
use crate::route::Route;
use line_fields::{read_count, read_octet};
use matchit::{InsertError, Router};
use panel_edges::NoMemory;
use std::alloc::Global;

const FACE: &str = "/v1/face/";

const UNTESTED: &str = "/v1/untested/";

/// The paths of the desk.
#[derive(Drop)]
pub struct Routes {
    router: Router<Path>,
    ghost paths: { router ≡ the_paths },
}

impl Routes {
    pub fn new(alloc: Global) -> Result<Routes, NoMemory> {
        match paths(alloc) {
            Ok(router) => Ok(Routes { router }),
            Err(_) => Err(NoMemory),
        }
    }

    // What a path asks for at a site with so many panels.
    pub(crate) fn find(&self, panels: u8, path: &str) -> Option<Route>
        ensures { result ≡ route_of panels path.now }
    {
        match self.router.at(path) {
            Ok(found) => with_number(*found.value, panels, path.as_bytes()),
            Err(_) => None,
        }
    }
}

fn paths(alloc: Global) -> Result<Router<Path>, InsertError>
    ensures { IfOk result (λ router. router ≡ the_paths) }
{
    let mut router = Router::new(alloc);
    router.insert("/v1/face/{panel}", Path::Face)?;
    router.insert("/v1/ticks", Path::Ticks)?;
    router.insert("/v1/table", Path::Table)?;
    router.insert("/v1/visits", Path::Visits)?;
    router.insert("/v1/untested/{day}", Path::Untested)?;
    router.insert("/v1/stop", Path::Stop)?;
    Ok(router)
}

// The route of a path that has matched, where the number behind it is in its range.
fn with_number(matched: Path, panels: u8, path: &[u8]) -> Option<Route>
    ensures { result ≡ route_at panels path.now matched }
{
    match matched {
        Path::Face => match read_octet(behind(path, FACE.len())) {
            Some(panel) if panel >= 1 && panel <= panels => Some(Route::Face(panel)),
            _ => None,
        },
        Path::Ticks => Some(Route::Ticks),
        Path::Table => Some(Route::Table),
        Path::Visits => Some(Route::Visits),
        Path::Untested => match read_count(behind(path, UNTESTED.len())) {
            Some(day) => Some(Route::Untested(day)),
            None => None,
        },
        Path::Stop => Some(Route::Stop),
    }
}

// What stands behind so many bytes.
fn behind(path: &[u8], count: usize) -> &[u8]
    ensures { result.now ≡ drop count path.now }
{
    path.split_at(count.min(path.len())).1
}
