// What is needed before a value can be evaluated: nothing, an answer that is missing, or what the values inside it need. Looking writes nothing
// but the stack, from where it is free on.
// Computes: theory_order's settling by levels, one step of it
#![tactic(auto)]

ghost use Rattle.eval_settle_laws.specs.Needs.{LayerAsked, LayerIs, ObjectsAsked, ObjectsIs};
ghost use Rattle.eval_settle_laws.specs.Needs.{KeyAsked, KeyIs, ElementAsked, ElementIs, PlaceAsked, PlaceIs};

use doc_items::{CAPACITY, COLUMN_SIZE, PIECE, SHEET, TRAIL, WIDTH, number_at};
use eval_groups::sources::{element_at, members_from, take_from};
use eval_layers::Taken;
use eval_nodes::answer::Answered;
use eval_nodes::{Member, layer_of};
use eval_settle_laws::{Kind, Met, Need, Span};
use eval_stack::{code_at, link_at, push};
use eval_writer::Source;
use text_chars::{RecAt, TextAt};

// Where the answers stand in the job's bytes.
const ANSWERS: Source = Source {
    rec: RecAt(TRAIL),
    text: TextAt(SHEET),
};

/// A simple or a finished value needs nothing; an array or an object what is inside it.
pub fn need_of_layer(
    table: &[u16],
    bytes: &[u8],
    stack: &mut [u16],
    top: usize,
    layer: usize,
) -> Need
    requires { LayerAsked table.now bytes.now stack.old top layer }
    ensures { LayerIs table.now bytes.now top layer stack.old stack.new result }
{
    if CAPACITY <= layer {
        return Need::Nothing;
    }
    let kind = number_at(table, WIDTH * layer) % PIECE;
    if kind == doc_items::ARRAY {
        let size = number_at(table, WIDTH * layer + COLUMN_SIZE);
        return Need::Inside(Span {
            kind: Kind::Elements,
            from: layer + 1,
            end: layer + size,
            top,
        });
    }
    if kind == doc_items::OBJECT {
        let hi = push(stack, top, layer);
        let end = members_from(table, bytes, stack, ANSWERS, top, hi);
        return Need::Inside(Span {
            kind: Kind::Keys,
            from: hi,
            end,
            top: end,
        });
    }
    Need::Nothing
}

// The objects from one entry to another that a key comes to. One that stands alone is a layer; of several the members are grouped by key.
fn need_of_objects(table: &[u16], bytes: &[u8], stack: &mut [u16], lo: usize, hi: usize) -> Need
    requires { ObjectsAsked table.now bytes.now stack.old lo hi }
    ensures { ObjectsIs table.now bytes.now lo hi stack.old stack.new result }
{
    if hi == lo + 1 {
        let layer = code_at(stack, lo);
        return need_of_layer(table, bytes, stack, lo, layer);
    }
    let end = members_from(table, bytes, stack, ANSWERS, lo, hi);
    Need::Inside(Span {
        kind: Kind::Keys,
        from: hi,
        end,
        top: end,
    })
}

// A key, whose first member stands at p: what its layers come to. After an answer that they miss they are taken again.
fn need_of_key(table: &[u16], bytes: &[u8], stack: &mut [u16], p: usize, top: usize) -> Met
    requires { KeyAsked table.now bytes.now stack.old p top }
    ensures { KeyIs table.now bytes.now p top stack.old stack.new result }
{
    let next = p + 1;
    match take_from(table, bytes, stack, ANSWERS, p, top) {
        Taken::Nothing => Met {
            need: Need::Nothing,
            next,
        },
        Taken::Needs(b) => Met {
            need: Need::Answer(b),
            next: p,
        },
        Taken::One(layer) => {
            let need = need_of_layer(table, bytes, stack, top, layer);
            Met { need, next }
        }
        Taken::Merged(hi) => {
            let need = need_of_objects(table, bytes, stack, top, hi);
            Met { need, next }
        }
    }
}

// The element at p: an unresolved value needs its answer where that is missing, any other is a layer.
fn need_of_element(
    table: &[u16],
    bytes: &[u8],
    stack: &mut [u16],
    p: usize,
    end: usize,
    top: usize,
) -> Met
    requires { ElementAsked table.now bytes.now stack.old p end top }
    ensures { ElementIs table.now bytes.now p end top stack.old stack.new result }
{
    match element_at(table, bytes, ANSWERS, p, end) {
        Member::End => Met {
            need: Need::Nothing,
            next: end,
        },
        Member::Seam(next) => Met {
            need: Need::Nothing,
            next,
        },
        Member::At { layer: item, next } => match layer_of(table, item) {
            Answered::Undefined => Met {
                need: Need::Nothing,
                next,
            },
            Answered::Missing(b) => Met {
                need: Need::Answer(b),
                next,
            },
            Answered::Layer(layer) => {
                let need = need_of_layer(table, bytes, stack, top, layer);
                Met { need, next }
            }
        },
    }
}

/// What is needed at the place p of a span. A key's other members need nothing: it was met at its first.
pub fn need_at(table: &[u16], bytes: &[u8], stack: &mut [u16], span: Span, p: usize) -> Met
    requires { PlaceAsked table.now bytes.now stack.old span.kind p span.end span.top }
    ensures { PlaceIs table.now bytes.now span.kind p span.end span.top
        stack.old stack.new result }
{
    let end = span.end;
    let top = span.top;
    let kind = span.kind;
    match kind {
        Kind::Elements => need_of_element(table, bytes, stack, p, end, top),
        Kind::Keys => {
            if link_at(stack, p) < p {
                return Met {
                    need: Need::Nothing,
                    next: p + 1,
                };
            }
            need_of_key(table, bytes, stack, p, top)
        }
    }
}
