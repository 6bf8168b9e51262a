//! Which paths the table's patterns spell, in plain words.
ghost use Rattle.std.specs.Prelude.{◌≡◌, ℕ, List, Some, Ok, Err, true, false};
ghost use Rattle.std.specs.List.{list_all};
ghost use Rattle.matchit.specs.Router.{RouteOf};
ghost use Rattle.matchit.specs.Seek.{first};
ghost use Rattle.cw_types.specs.Name.{is_name_byte};
ghost use Rattle.cw_route.specs.declared.call.Call.{Call};
ghost use Rattle.cw_route.specs.declared.call.RouteFault.TheVariants.{NotFound};
ghost use Rattle.cw_route.specs.declared.page.Page.{Page};
ghost use Rattle.cw_route.specs.Table.{table, page_route, page_path, page_params};
ghost use Rattle.cw_route.specs.Operations.{operation};
ghost use Rattle.cw_route.specs.Calls.{params_of, call_asked, call_at, call_of, is_refused};
ghost use Rattle.cw_route.specs.HeldNames.{HoldsName};
ghost use Rattle.cw_route.specs.Spelled.{AreBytes, IsSegment, IsAt};

/// The law of the table: a path that is spelled as a page's pattern, with a segment in place of each
/// parameter, is found at that page with these segments, and a path that is found is spelled so.
pub fn table_reads()
    ensures found { (page : Page) (name task : List ℕ) → IsSegment name → IsSegment task →
        first table (page_path page name task) ≡ Some (page_route page) }
    ensures taken { (page : Page) (name task : List ℕ) → IsSegment name → IsSegment task →
        params_of (page_path page name task) (page_route page) ≡ page_params page name task }
    ensures only { (path : List ℕ) (route : RouteOf Page) → AreBytes path → first table path ≡ Some route →
        (page : Page) × IsAt path page × (route ≡ page_route page) }
{}

/// The law of calls: at a page's path the method decides what is asked, of just the name and the task that
/// stand in the path; a path of no page isn't found; and no request's call is a refusal.
pub fn pages_are_called()
    ensures page { (page : Page) (method name task query body : List ℕ) → IsSegment name → IsSegment task →
        list_all is_name_byte (page_path page name task) ≡ true
        → call_at method (page_path page name task) query body ≡
        call_asked (operation page method) (page_params page name task) query body }
    ensures other { (method path query body : List ℕ) → AreBytes path → ((page : Page) → IsAt path page → ⊥) →
        call_at method path query body ≡ Err NotFound }
    ensures kept { (method target body : List ℕ) (call : Call) → call_of method target body ≡ Ok call →
        is_refused call ≡ false }
{}

/// A call that names a connector, or one of its tasks, holds a name: at most 128 bytes, each `!` to `~`.
pub fn calls_hold_names()
    ensures { (method target body : List ℕ) (call : Call) → call_of method target body ≡ Ok call → HoldsName call }
{}
