// What a job's tables show of a layer, which is a number: an item of the document by its index, or a finished value by the offset of
// its record and the capacity more. Finished values stand as kept: a key's record has the key's number, an
// array's or object's how long what is inside is. This crate packs a layer's number and takes it apart. Whatever
// the tables hold, each look ends with an answer, and each number fits the stack's entries.
// Computes: Layers (by the model in specs/Model)
#![tactic(auto)]

pub mod answer;

ghost use Rattle.std.specs.Prelude.{◌≤◌, ◌<◌};
ghost use Rattle.rules.specs.Sizes.{max_room};
ghost use Rattle.doc_items.specs.Room.{capacity, number_bound};
ghost use Rattle.eval_nodes.specs.Clauses.{Few, AnswerIs, AnsweredIs, ViewIs, ItemViewIs, RecordViewIs, ItemMemberIs, RecordMemberIs, MemberIs, RecordKeyIs, NumberIs, KeyIs};

use crate::answer::Answered;
use codes::{kinds, limits};
use doc_items::{COLUMN_NUMBER, COLUMN_SIZE, WIDTH};
use sheet_forms::{HEAD, WORD, kind_at, record_end};
use text_chars::RecAt;

/// An object's members: they stand from one place up to another.
#[derive(Clone, Copy)]
pub struct Members {
    pub first: usize,
    pub end: usize,
}

/// What stands at a place among an object's members.
#[derive(Clone, Copy)]
pub enum Member {
    /// No member more.
    End,
    /// A seam, to be passed over: where the next place is.
    Seam(usize),
    /// A member, by the number of its value, and where the next place is.
    At { layer: usize, next: usize },
}

// How far before a member's value its key's number stands.
const KEY_NUMBER: usize = 4;

// The numbers that an answer may have in the table: its record begins inside the answers' room.
const ANSWER_BOUND: usize = limits::ROOM + 2;

// What the table has of an answer; a number that is no answer's is none yet.
fn answer_at(table: &[u16], b: usize) -> usize
    requires { b < number_bound }
    ensures { AnswerIs table.now b result }
{
    let a = doc_items::number_at(table, doc_items::ANSWERS + b);
    if a < ANSWER_BOUND {
        return a;
    }
    0
}

/// What a node's number shows.
pub fn layer_of(table: &[u16], layer: usize) -> Answered
    ensures { AnsweredIs table.now layer result }
{
    if layer < doc_items::CAPACITY {
        if doc_items::number_at(table, WIDTH * layer) == doc_items::UNRESOLVED {
            let b = doc_items::number_at(table, WIDTH * layer + COLUMN_NUMBER);
            let a = answer_at(table, b);
            return crate::answer::answer_of(b, a);
        }
    }
    Answered::Layer(layer)
}

// A member or a piece: the kind of an object that is a piece is so much more.
fn item_view(table: &[u16], layer: usize) -> Option<Members>
    requires { layer < capacity }
    ensures { ItemViewIs table.now layer result }
{
    let kind = doc_items::number_at(table, WIDTH * layer);
    if kind % doc_items::PIECE == doc_items::OBJECT {
        let size = doc_items::number_at(table, WIDTH * layer + COLUMN_SIZE);
        return Some(Members {
            first: layer + 1,
            end: layer + size,
        });
    }
    None
}

fn record_view(records: &[u8], o: usize) -> Option<Members>
    requires { Few records.now × (o ≤ max_room) }
    ensures { RecordViewIs records.now o result }
{
    if kind_at(records, RecAt(o)) == kinds::OBJECT {
        let end = record_end(records, RecAt(o));
        return Some(Members {
            first: doc_items::CAPACITY + (o + HEAD),
            end: doc_items::CAPACITY + end.0,
        });
    }
    None
}

/// The members of a layer that is an object; any other covers what is below it.
pub fn view_of(table: &[u16], records: &[u8], layer: usize) -> Option<Members>
    requires { Few records.now }
    ensures { ViewIs table.now records.now layer result }
{
    if layer < doc_items::CAPACITY {
        return item_view(table, layer);
    }
    let o = layer - doc_items::CAPACITY;
    if o <= limits::ROOM {
        return record_view(records, o);
    }
    None
}

fn item_member(table: &[u16], p: usize) -> Member
    requires { p < capacity }
    ensures { ItemMemberIs table.now p result }
{
    if doc_items::PIECE <= doc_items::number_at(table, WIDTH * p) {
        return Member::Seam(p + 1);
    }
    let size = doc_items::number_at(table, WIDTH * p + COLUMN_SIZE);
    if size == 0 {
        return Member::End;
    }
    Member::At {
        layer: p,
        next: p + size,
    }
}

fn record_member(records: &[u8], o: usize) -> Member
    requires { Few records.now × (o ≤ max_room) }
    ensures { RecordMemberIs records.now o result }
{
    let end = record_end(records, RecAt(o + WORD));
    Member::At {
        layer: doc_items::CAPACITY + (o + WORD),
        next: doc_items::CAPACITY + end.0,
    }
}

/// The member at p of an object whose members go up to e.
pub fn member_at(table: &[u16], records: &[u8], p: usize, e: usize) -> Member
    requires { Few records.now }
    ensures { MemberIs table.now records.now p e result }
{
    if e <= p {
        return Member::End;
    }
    if p < doc_items::CAPACITY {
        return item_member(table, p);
    }
    let o = p - doc_items::CAPACITY;
    if o <= limits::ROOM {
        return record_member(records, o);
    }
    Member::End
}

// The two bytes behind a key record's kind: in a record as kept they are the key's number.
fn record_key(records: &[u8], o: usize) -> usize
    requires { Few records.now }
    ensures { RecordKeyIs records.now o result }
{
    if o < WORD {
        return 0;
    }
    if limits::ROOM < o {
        return 0;
    }
    sheet_records::kinds::pair_at(records, RecAt(o - KEY_NUMBER))
}

// A key number, or 0, which is no key's: what is held may be any number.
fn key_number(k: usize) -> usize
    ensures { NumberIs k result }
{
    if k < doc_items::CAPACITY { k } else { 0 }
}

/// The number of a member's key.
pub fn key_of(table: &[u16], records: &[u8], layer: usize) -> usize
    requires { Few records.now }
    ensures { KeyIs table.now records.now layer result }
{
    if layer < doc_items::CAPACITY {
        return key_number(doc_items::number_at(table, eval_keys::KEYS + layer));
    }
    key_number(record_key(records, layer - doc_items::CAPACITY))
}
