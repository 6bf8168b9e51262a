//! What the methods of each path ask for.
ghost use Rattle.std.specs.Prelude.{◌≡◌};
ghost use Rattle.cw_route.specs.Operations.{only, operation};

use crate::page::Page;

// What a method asks for at a page.
#[derive(Clone, Copy, Debug, PartialEq, Eq)]
pub(crate) enum Operation {
    Connectors,
    Create,
    Info,
    Delete,
    Config,
    PutConfig,
    Status,
    Tasks,
    TaskStatus,
    Pause,
    Resume,
    Stop,
    Restart,
    RestartTask,
    Offsets,
    Alter,
    Reset,
    Plugins,
}

// The operation, where the method is the wanted one.
fn only(wanted: &[u8], operation: Operation, method: &[u8]) -> Option<Operation>
    ensures { result ≡ only wanted.now operation method.now }
{
    if method == wanted {
        Some(operation)
    } else {
        None
    }
}

// What a method asks for at a page, if the page has it.
pub(crate) fn operation_at(page: Page, method: &[u8]) -> Option<Operation>
    ensures { result ≡ operation page method.now }
{
    let is_get = method == b"GET".as_slice();
    match page {
        Page::Connectors if is_get => Some(Operation::Connectors),
        Page::Connectors => only(b"POST", Operation::Create, method),
        Page::Plugins => only(b"GET", Operation::Plugins, method),
        Page::Connector if is_get => Some(Operation::Info),
        Page::Connector => only(b"DELETE", Operation::Delete, method),
        Page::Config if is_get => Some(Operation::Config),
        Page::Config => only(b"PUT", Operation::PutConfig, method),
        Page::Offsets if is_get => Some(Operation::Offsets),
        Page::Offsets if method == b"PATCH".as_slice() => Some(Operation::Alter),
        Page::Offsets => only(b"DELETE", Operation::Reset, method),
        Page::Pause => only(b"PUT", Operation::Pause, method),
        Page::Resume => only(b"PUT", Operation::Resume, method),
        Page::Stop => only(b"PUT", Operation::Stop, method),
        Page::Restart => only(b"POST", Operation::Restart, method),
        Page::Status => only(b"GET", Operation::Status, method),
        Page::Tasks => only(b"GET", Operation::Tasks, method),
        Page::TaskRestart => only(b"POST", Operation::RestartTask, method),
        Page::TaskStatus => only(b"GET", Operation::TaskStatus, method),
    }
}
