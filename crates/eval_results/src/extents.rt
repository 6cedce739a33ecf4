// How far a value is written and how deep it is nested, by counters that cannot run away: whatever the tables hold, they end at a bound
// far above what any value may have.
// Computes: Sheet
ghost use Rattle.std.specs.Prelude.{◌≡◌, min};
ghost use Rattle.eval_results.specs.Extents.Contracts.{far, NotPast, ClipIs, ClipOutIs, inside_c, MoreIs};

use eval_writer::Out;
use sheet_forms::HEAD;
use text_chars::{RecAt, TextAt};

/// Where counters end: from here records may still be added to them, and no value within its size comes so far.
pub const FAR: usize = 4294967296;

/// How far a value is written, and how deep it is nested.
#[derive(Clone, Copy)]
pub struct Extent {
    pub out: Out,
    pub deep: usize,
}

fn at_most_far(n: usize) -> usize
    ensures { result ≡ min far n }
{
    if n < FAR {
        return n;
    }
    FAR
}

/// Both counters, no further than they may go.
pub fn clip_out(o: Out) -> Out
    ensures { ClipOutIs o result }
{
    let rec = o.rec;
    let text = o.text;
    Out {
        rec: RecAt(at_most_far(rec.0)),
        text: TextAt(at_most_far(text.0)),
    }
}

/// What was written, its counters and its depth no further than they may go.
pub fn clip(o: Out, deep: usize) -> Extent
    ensures { ClipIs o deep result }
{
    Extent {
        out: clip_out(o),
        deep: at_most_far(deep),
    }
}

/// How long the members are that go up to an end, behind the head at another place.
pub fn length_inside(o: Out, end: Out) -> usize
    requires { NotPast o }
    ensures { result ≡ inside_c o end }
{
    let head = o.rec;
    let last = end.rec;
    let from = head.0 + HEAD;
    if last.0 < from {
        return 0;
    }
    last.0 - from
}

/// One member more behind those before it: written as far as the later one, as deep as the deeper one.
pub fn with_more(e: Extent, m: Extent) -> Extent
    ensures { MoreIs e m result }
{
    let out = m.out;
    if e.deep < m.deep {
        return Extent { out, deep: m.deep };
    }
    Extent { out, deep: e.deep }
}
