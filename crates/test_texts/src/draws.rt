//! Tables drawn as graphs.
use std::alloc::Global;
use std::test::Fail;
use tab_draw::draw;
use tab_text::parse;

/// Rows that leave and rows that stay, two of them in one state; guards, and two rows between the same states.
const SESSION: &[u8] = b"  State  Event                        Action         Next
  Idle   Begin                        Start          Wait
  Wait   CCA-I when mine and success  Grant-Service  Done
  Wait   CCA-I when late              -              Wait
  Wait   Tx                           -              Idle
  Wait   CCA-I                        End-Service    Wait
  Done   End when a and b and c and d -              Idle
  Done   End                          -              Idle
";

const SESSION_GRAPH: &[u8] = b"digraph table {
  graph [ranksep=0.8, nodesep=0.4];
  node [shape=box, style=rounded, fontname=\"Helvetica\", fontsize=12];
  edge [fontname=\"Helvetica\", fontsize=10];
  \"Idle\" [label=\"Idle\\n\"];
  \"Wait\" [label=\"Wait\\n 2 CCA-I [late]\\l 4 CCA-I\\l\"];
  \"Done\" [label=\"Done\\n\"];
  \"Idle\" -> \"Wait\" [label=\" 0 Begin\\l\"];
  \"Wait\" -> \"Idle\" [label=\" 3 Tx\\l\"];
  \"Wait\" -> \"Wait\";
  \"Wait\" -> \"Done\" [label=\" 1 CCA-I [mine and success]\\l\"];
  \"Done\" -> \"Idle\" [label=\" 5 End [a and b and c and d]\\l 6 End\\l\"];
}
";

/// A machine that never leaves its state.
const STILL: &[u8] = b"  State  Event  Action  Next
  A/-_9  Start  -       A/-_9
";

const STILL_GRAPH: &[u8] = b"digraph table {
  graph [ranksep=0.8, nodesep=0.4];
  node [shape=box, style=rounded, fontname=\"Helvetica\", fontsize=12];
  edge [fontname=\"Helvetica\", fontsize=10];
  \"A/-_9\" [label=\"A/-_9\\n 0 Start\\l\"];
  \"A/-_9\" -> \"A/-_9\";
}
";

/// Whether a text's table is drawn so.
fn is_drawn_as(alloc: Global, text: &[u8], wanted: &[u8]) -> Result<bool, Fail> {
    let table = parse(alloc, text)?;
    let drawn = draw(alloc, &table)?;
    Ok(drawn.as_slice() == wanted)
}

#[test]
fn a_table_is_drawn_as_a_graph(rt: HostRuntime) -> Result<(), Fail> {
    assert!(rt; is_drawn_as(rt.alloc(), SESSION, SESSION_GRAPH)?);
    assert!(rt; is_drawn_as(rt.alloc(), STILL, STILL_GRAPH)?);
    Ok(())
}
