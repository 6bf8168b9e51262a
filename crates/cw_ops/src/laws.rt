//! What the types of a call and of the feeds say of the names that they hold.
ghost use Rattle.std.specs.List.{AllByRecursion};
ghost use Rattle.cw_types.specs.Name.{IsName};
ghost use Rattle.cw_laws.specs.Requests.{IsOfName};

use cw_route::Call;
use cw_types::Name;

/// The law of every call: the connector that is given a config has a name. It does nothing at run time.
pub fn is_of_name(call: &Call)
    ensures { IsOfName call.now }
{
    if let Call::PutConfig(name, _) = call {
        let _ = name.as_bytes();
    }
}

/// The law of every feed: it has a name. It changes nothing.
pub fn feeds_are_named(feeds: &[Name])
    ensures { AllByRecursion IsName feeds.now }
{
    for name in feeds {
        is_name(name);
    }
}

// The law of every name. It does nothing at run time.
fn is_name(name: &Name)
    ensures { IsName name.now }
{
    let _ = name.as_bytes();
}
