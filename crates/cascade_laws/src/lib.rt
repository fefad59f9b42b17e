//! What holds of every run of a script. There is no code here but the functions that carry the
//! laws.
#![tactic(auto)]

ghost use Rattle.cascade_laws.specs.Run.{LinesReportAll, LinesReportWhatIsHeld, OrdersGiveTheirLines, RunsAreRight};

/// Each line of a run is right for the orders and the lines before it: a `stored` line names a
/// prefix of the accepted writes of the consumer's provider, no shorter than at the consumer's
/// latest opening, and its entries are exactly what the consumer wants of it, and at a `settled`
/// line of all these writes; what was sent since an opening is a prefix of the messages of its
/// search (RFC 4533, sections 3.3 and 3.4), or such a prefix and the end with busy; a search is
/// refused with e-syncRefreshRequired alone, exactly where its consumer holds a cookie that is not
/// blank and that its provider can't serve, and was declared without a reloadHint; a search that
/// its provider ends reports busy; and a message is refused by its consumer only where it fills the
/// stage of its copy, and a write came since the opening.
pub fn lines_are_right()
    ensures { RunsAreRight }
{}

/// Each order of a run gives the lines that belong to it, and no others: as many of each kind, in
/// that order and of that node, as its command gives.
pub fn orders_give_their_lines()
    ensures { OrdersGiveTheirLines }
{}

/// The lines of a run report all that happened to its consumers: each message that was sent stands
/// in the link as the bytes that its line reports, each that was taken was decoded from the first
/// of these and applied to the copy, and nothing else changed a copy.
pub fn lines_report_all()
    ensures { LinesReportAll }
{}

/// What the lines of a run report last of a consumer, that of a replica too, is what it holds at
/// the end: the entries of its last `stored` line, or none before the first, and the cookie of this
/// line, or what was lost or given since.
pub fn lines_report_what_is_held()
    ensures { LinesReportWhatIsHeld }
{}
