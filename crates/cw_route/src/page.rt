//! The paths of the REST API.
ghost use Rattle.std.specs.Prelude.{◌≡◌, None, IfOk, OnOk};
ghost use Rattle.matchit.specs.Order.{placed};
ghost use Rattle.matchit.specs.Router.{nearest};
ghost use Rattle.matchit.specs.declared.error.InsertError.{InsertError};
ghost use Rattle.cw_route.specs.Table.{page_route, table};

use matchit::{InsertError, Router};
use std::alloc::{AllocError, Global};

/// A path of the table, whatever stands in place of its parameters.
#[derive(Clone, Copy, Debug, PartialEq, Eq)]
pub enum Page {
    /// All connectors.
    Connectors,
    /// The classes of connectors.
    Plugins,
    /// A connector.
    Connector,
    /// Its config.
    Config,
    /// Its offsets.
    Offsets,
    /// Its target state `PAUSED`.
    Pause,
    /// Its target state `STARTED`.
    Resume,
    /// Its target state `STOPPED`.
    Stop,
    /// Its restart.
    Restart,
    /// Its state.
    Status,
    /// Its tasks.
    Tasks,
    /// The restart of one of its tasks.
    TaskRestart,
    /// The state of one of its tasks.
    TaskStatus,
}

// All pages.
const PAGES: [Page; 13] = [
    Page::Connectors,
    Page::Plugins,
    Page::Connector,
    Page::Config,
    Page::Offsets,
    Page::Pause,
    Page::Resume,
    Page::Stop,
    Page::Restart,
    Page::Status,
    Page::Tasks,
    Page::TaskRestart,
    Page::TaskStatus,
];

impl Page {
    ghost use Rattle.cw_route.specs.Table.{page_text};

    // The pattern of its paths.
    fn pattern(self) -> &'static str
        ensures { result.now ≡ page_text self }
    {
        match self {
            Page::Connectors => "/connectors",
            Page::Plugins => "/connector-plugins",
            Page::Connector => "/connectors/{name}",
            Page::Config => "/connectors/{name}/config",
            Page::Offsets => "/connectors/{name}/offsets",
            Page::Pause => "/connectors/{name}/pause",
            Page::Resume => "/connectors/{name}/resume",
            Page::Stop => "/connectors/{name}/stop",
            Page::Restart => "/connectors/{name}/restart",
            Page::Status => "/connectors/{name}/status",
            Page::Tasks => "/connectors/{name}/tasks",
            Page::TaskRestart => "/connectors/{name}/tasks/{task}/restart",
            Page::TaskStatus => "/connectors/{name}/tasks/{task}/status",
        }
    }
}

// The table of paths. No two of its patterns conflict, so that nothing but memory can be wanting.
pub(crate) fn router(alloc: Global) -> Result<Router<Page>, AllocError>
    ensures { IfOk result (λ router. router ≡ table) }
{
    let mut router = Router::new(alloc);
    for page in PAGES {
        add(&mut router, page)?;
    }
    Ok(router)
}

// One page more, whose pattern has no conflict with those that are there.
fn add(router: &mut Router<Page>, page: Page) -> Result<(), AllocError>
    requires { nearest (page_route page).pattern router.old ≡ None }
    ensures { OnOk result (router.new ≡ placed ((page_route page).pattern, page_route page) router.old) }
{
    match router.insert(page.pattern(), page) {
        Ok(()) => Ok(()),
        Err(fault) => Err(want_of_memory(fault)),
    }
}

fn want_of_memory(fault: InsertError) -> AllocError
    requires { fault ≡ InsertError.OutOfMemory }
{
    match fault {
        InsertError::OutOfMemory => AllocError,
        _ => unreachable!(),
    }
}
