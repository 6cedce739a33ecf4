// The layers of a path of one key: the root's fields with that key, all or those before one, found by the links between them.
// Computes: Layers (named, of the root's fields, by the links of eval_root_index)
ghost use Rattle.std.specs.Prelude.{◌<◌};
ghost use Rattle.doc_items.specs.Room.{number_bound};
ghost use Rattle.eval_stack.specs.Clauses.{Stack};
ghost use Rattle.eval_substitutions.specs.RootFields.Contracts.{OfRootIs};

use doc_items::number_at;
use eval_layers::Walked;

/// The root's fields with a key's number that stand before an item, as layers from base on. Links that are right rise, so the walk ends where
/// one does not.
pub fn of_root(table: &[u16], work: &mut [u16], base: usize, key: usize, end: usize) -> Walked
    requires { Stack base base work.old × (key < number_bound) }
    ensures { OfRootIs table.now key end base work.old work.new result }
{
    let mut i = number_at(table, eval_keys::FIRST + key);
    let mut walk = Walked {
        top: base,
        stuck: None,
    };
    while i != 0 {
        if end <= i {
            return walk;
        }
        walk = eval_layers::push_layer(table, work, base, walk, i);
        let next = number_at(table, eval_keys::NEXT + i);
        if next <= i {
            return walk;
        }
        i = next;
    }
    walk
}
