//! What drawing a table's text prints.
use base_device::{Counting, Status};
use std::alloc::Global;
use tab_draw::draw_on;

const TABLE: &str = "  State  Event                        Action         Next
  Wait   CCA-I when mine and success  Grant-Service  Done
  Wait   CCA-I                        End-Service    Wait
";

const GRAPH: &str = "digraph table {
  graph [ranksep=0.8, nodesep=0.4];
  node [shape=box, style=rounded, fontname=\"Helvetica\", fontsize=12];
  edge [fontname=\"Helvetica\", fontsize=10];
  \"Wait\" [label=\"Wait\\n 1 CCA-I\\l\"];
  \"Done\" [label=\"Done\\n\"];
  \"Wait\" -> \"Wait\";
  \"Wait\" -> \"Done\" [label=\" 0 CCA-I [mine and success]\\l\"];
}
";

/// Whether drawing a text prints this and ends so.
fn draws(alloc: Global, table: &str, printed: &str, wanted: Status) -> bool {
    let mut sink = Counting::new(Vec::new(alloc));
    let status = draw_on(alloc, table.as_bytes(), &mut sink);
    sink.device.as_slice() == printed.as_bytes() && status == wanted
}

#[test]
fn a_text_is_drawn_or_its_first_fault_told(rt: HostRuntime) {
    for (table, printed, status) in [
        (TABLE, GRAPH, Status::Done),
        (
            "",
            "line 0 fault 1\n  wanted: a header: two blanks, then the words State, Event, Action and Next\n",
            Status::Refused,
        ),
        (
            "  State  Event  Action  Next\n  A      x      -\n",
            "line 2 fault 3\n  wanted: a row with an Event, an Action (- for none) and a Next, \
                the first one with a State too\n  wrong: A      x      -\n",
            Status::Refused,
        ),
    ] {
        assert!(rt; draws(rt.alloc(), table, printed, status));
    }
}
