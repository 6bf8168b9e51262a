//! What the type of a call says of the names that it holds.
ghost use Rattle.cw_types.specs.Name.{IsName};
ghost use Rattle.cw_route.specs.HeldNames.{HoldsName};

use cw_route::Call;
use cw_types::Name;

/// The law of every call: the connector that it names has a name. It does nothing at run time.
pub(crate) fn holds_name(call: &Call)
    ensures { HoldsName call.now }
{
    match call {
        Call::Refused(_) | Call::Connectors | Call::Create(_) | Call::Plugins => {}
        Call::Info(name)
        | Call::Delete(name)
        | Call::Config(name)
        | Call::PutConfig(name, _)
        | Call::Status(name)
        | Call::Tasks(name)
        | Call::Pause(name)
        | Call::Resume(name)
        | Call::Stop(name)
        | Call::Restart(name)
        | Call::Offsets(name)
        | Call::Alter(name, _)
        | Call::Reset(name) => is_name(name),
        Call::TaskStatus(id) | Call::RestartTask(id) => is_name(&id.connector),
    }
}

// The law of every name. It does nothing at run time.
fn is_name(name: &Name)
    ensures { IsName name.now }
{
    let _ = name.as_bytes();
}
