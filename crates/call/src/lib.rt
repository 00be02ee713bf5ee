// A call: from voice and sheet to pitch periods of samples.
#![tactic(auto)]

ghost use Rattle.std.specs.Prelude.{◌≡◌};
ghost use Rattle.call.specs.Numbers as numbers;
ghost use Rattle.call.specs.Call.{filter_in};

use lpc::{FilterState, ResynthType};
use refusal::Refusal;

// How the selected units are joined.
#[derive(Clone, Copy)]
pub enum JoinType {
    None,
    Simple,
    ModifiedLpc,
}

#[derive(Clone, Copy)]
pub struct Settings {
    pub join: JoinType,
    pub filter: Option<ResynthType>,
    pub fold: bool,
    // Whether the call is refused if a pair finds no name that it tries.
    pub strict: bool,
}

// The flags of a settings word, as the C header has them.
pub const JOIN_SIMPLE: u32 = 1;

pub const JOIN_MODIFIED: u32 = 2;

pub const FILTER_FIXED: u32 = 4;

// The join of a number: 0 none, 1 simple, any other modified.
fn join_of(n: u32) -> JoinType
    ensures { result ≡ numbers.join_of n }
{
    if n == 0 {
        return JoinType::None;
    }
    if n == 1 {
        return JoinType::Simple;
    }
    JoinType::ModifiedLpc
}

// The filter of a number: 0 not named, 1 fixed, any other float.
fn filter_of(n: u32) -> Option<ResynthType>
    ensures { result ≡ numbers.filter_of n }
{
    match n {
        0 => None,
        1 => Some(ResynthType::Fixed),
        _ => Some(ResynthType::Float),
    }
}

// The settings of a word: bits 0 and 1 the join, bits 2 and 3 the filter, bit 4 fold, bit 5 strict.
pub fn settings_of(word: u32) -> Settings
    ensures { result ≡ numbers.settings_of word }
{
    Settings {
        join: join_of(word % 4),
        filter: filter_of(word / 4 % 4),
        fold: word / 16 % 2 == 1,
        strict: word / 32 % 2 == 1,
    }
}

// The filter that a call with such settings ends up with.
pub fn filter_in(settings: Settings) -> ResynthType
    ensures { result ≡ filter_in settings }
{
    let filter = settings.filter;
    match filter {
        None => ResynthType::Float,
        Some(named) => named,
    }
}

// How many elements each buffer of a call must have.
#[derive(Clone, Copy)]
pub struct Need {
    pub entries: usize,
    pub marks: usize,
    pub periods: usize,
    pub rows: usize,
    pub excitation: usize,
    pub decoded: usize,
}

// How many bytes each buffer lent for a call has.
#[derive(Clone, Copy)]
pub struct Lengths {
    pub index: usize,
    pub marks: usize,
    pub sizes: usize,
    pub rows: usize,
    pub excitation: usize,
    pub decoded: usize,
}

// What a call that is not refused gives: samples per second, then how many of each.
#[derive(Clone, Copy)]
pub struct Summary {
    pub rate: usize,
    pub periods: usize,
    pub samples: usize,
    pub marks: usize,
    pub order: usize,
    pub entries: usize,
}

#[derive(Clone, Copy)]
pub struct Planned {
    pub answer: Result<Summary, Refusal>,
    pub state: FilterState,
}

#[derive(Clone, Copy)]
pub struct Pulled {
    pub answer: Result<Option<usize>, Refusal>,
    pub state: FilterState,
}
