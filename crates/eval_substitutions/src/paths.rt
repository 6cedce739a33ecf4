// The layers of a path on the stack: one walk deeper for each of its keys.
// Computes: Layers (layers_at, by the model in specs/Model)
ghost use Rattle.eval_nodes.specs.Clauses.{Few};
ghost use Rattle.eval_stack.specs.Clauses.{Stack};
ghost use Rattle.eval_substitutions.specs.Paths.Model.{onward_c, parted, PartIs, WalkPathIs};

use doc_items::number_at;
use eval_layers::Part;

// The layers one key deeper, right above these.
fn onward(table: &[u16], records: &[u8], work: &mut [u16], part: Part, key: usize) -> Part
    requires { Few records.now × Stack part.lo part.hi work.old }
    ensures { PartIs work.old part.hi work.new result (onward_c table.now records.now key
        (parted work.old part)) }
{
    let hi = part.hi;
    let walk = eval_layers::deeper(table, records, work, part, hi, key);
    Part {
        lo: hi,
        hi: walk.top,
        stuck: walk.stuck,
    }
}

/// The layers of a path, by its keys' numbers from one on, above those that it begins with.
pub fn walk_path(
    table: &[u16],
    records: &[u8],
    work: &mut [u16],
    start: Part,
    keys: &[u16],
    count: usize,
    from: usize,
) -> Part
    requires { Few records.now × Stack start.lo start.hi work.old }
    ensures { WalkPathIs table.now records.now keys.now work.old start count from
        work.new result }
{
    let mut p = start;
    for i in from..count {
        let key = number_at(keys, i);
        p = onward(table, records, work, p, key);
    }
    p
}
