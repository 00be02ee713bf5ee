// A diphone voice: its header, its tables and its index.
#![tactic(auto)]

pub mod header;
pub mod periods;
pub mod sections;
pub mod tables;

use base::Span;

// How a voice stores the residual of a pitch period.
#[derive(Clone, Copy)]
pub enum Codec {
    Ulaw,
    G721,
}

// `sts.header`, field by field.
#[derive(Clone, Copy)]
pub struct VoiceHeader {
    pub frames: u32,
    pub order: u32,
    pub rate: u32,
    pub coeff_min: f32,
    pub coeff_range: f32,
    pub codec: u32,
    pub stretch: f32,
    pub f0_mean: f32,
    pub f0_deviation: f32,
    pub fold: u32,
}

// An open voice: its header, and where its tables stand in the file. `entries` has the index after
// its count.
#[derive(Clone, Copy)]
pub struct DiphoneVoice {
    pub header: VoiceHeader,
    pub lpc: Span,
    pub offsets: Span,
    pub sizes: Option<Span>,
    pub residual: Span,
    pub count: usize,
    pub entries: Span,
}
