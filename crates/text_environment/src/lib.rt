// The environment's reader: whether an environment is by its rule, and its entries one by one. An entry is a name that is not empty,
// then `=`, a text, and a zero byte.
// Computes: Environment
#![tactic(auto)]

ghost use Rattle.std.specs.Prelude.{◌≡◌, ◌≤◌, ◌<◌, length};
ghost use Rattle.rules.specs.Sizes.{max_environment, max_entries};
ghost use Rattle.rules.specs.Environment.{entries_of};
ghost use Rattle.text_environment.specs.Clauses.{is_some, entries, NameEnds, TextEnds, EntryIs};

use codes::{bytes, limits};
use text_chars::{EnvAt, env_byte, ill_formed};

/// The places of an entry's `=` and of its zero byte.
#[derive(Clone, Copy)]
pub struct Parts {
    pub equals: EnvAt,
    pub zero: EnvAt,
}

// The `=` behind the name at a place; none where the name is against the rule.
fn name_end(env: &[u8], at: EnvAt) -> Option<EnvAt>
    requires { (length env.now ≤ max_environment) × (at.0 < length env.now) }
    ensures { NameEnds env.now at.0 result }
{
    for p in at.0..env.len() {
        let b = env_byte(env, EnvAt(p));
        if b == bytes::NUL {
            return None;
        }
        if b == bytes::EQUALS {
            if at.0 < p {
                return Some(EnvAt(p));
            }
            // The name is empty.
            return None;
        }
    }
    None
}

// The zero byte behind the text at a place; none where the text has no end.
fn text_end(env: &[u8], at: EnvAt) -> Option<EnvAt>
    requires { (length env.now ≤ max_environment) × (at.0 ≤ length env.now) }
    ensures { TextEnds env.now at.0 result }
{
    for p in at.0..env.len() {
        if env_byte(env, EnvAt(p)) == bytes::NUL {
            return Some(EnvAt(p));
        }
    }
    None
}

/// The entry at a place; none where it is against the rule.
pub fn entry_at(env: &[u8], at: EnvAt) -> Option<Parts>
    requires { (length env.now ≤ max_environment) × (at.0 < length env.now) }
    ensures { EntryIs env.now at.0 result }
{
    let equals = name_end(env, at)?;
    let zero = text_end(env, EnvAt(equals.0 + 1))?;
    Some(Parts { equals, zero })
}

// Whether the bytes are entries, not too many.
fn are_entries(env: &[u8]) -> bool
    requires { length env.now ≤ max_environment }
    ensures { result ≡ is_some (entries max_entries env.now 0) }
{
    let mut at = 0;
    let mut left: usize = limits::VARIABLES;
    while at < env.len() {
        let Some(entry) = entry_at(env, EnvAt(at)) else {
            return false;
        };
        if left == 0 {
            return false;
        }
        at = entry.zero.0 + 1;
        left -= 1;
    }
    true
}

/// Whether an environment is by its rule: not too long, well-formed UTF-8, and entries, not too many.
pub fn is_valid(env: &[u8]) -> bool
    ensures { result ≡ is_some (entries_of env.now) }
{
    if limits::ENVIRONMENT < env.len() {
        return false;
    }
    match ill_formed(env) {
        Some(_) => false,
        None => are_entries(env),
    }
}
