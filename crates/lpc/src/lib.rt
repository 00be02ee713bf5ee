// The LPC synthesis filter, fixed and float, one pitch period at a time.
#![tactic(auto)]

ghost use Rattle.std.specs.Prelude.{◌≡◌, ◌≤◌};
ghost use Rattle.lpc.specs.Ring.{place_before, place_after};
ghost use Rattle.lpc.specs.State.{fresh_state};

// Which arithmetic the filter uses.
#[derive(Clone, Copy)]
pub enum ResynthType {
    Fixed,
    Float,
}

// A filter between two periods: the number of the next period and where its excitation begins; the
// last outputs in a ring of order + 1 places, of which `ring_place` is written next. `fixed` has the
// ring of the fixed filter, as words, `float` that of the float filter.
#[derive(Clone, Copy)]
pub struct FilterState {
    pub filter: ResynthType,
    pub order: usize,
    pub ring_place: usize,
    pub period: usize,
    pub sample_place: usize,
    pub coeff_min: f32,
    pub coeff_range: f32,
    pub fixed: [u32; 33],
    pub float: [f32; 33],
}

impl FilterState {
    // The state before the first period.
    pub fn fresh(filter: ResynthType, order: usize, coeff_min: f32, coeff_range: f32) -> FilterState
        ensures { result ≡ fresh_state filter order coeff_min coeff_range }
    {
        FilterState {
            filter,
            order,
            ring_place: order,
            period: 0,
            sample_place: 0,
            coeff_min,
            coeff_range,
            fixed: [0; 33],
            float: [0.0; 33],
        }
    }
}

// The ring's place before `at`.
pub fn place_before(order: usize, at: usize) -> usize
    requires { at ≤ order }
    ensures { (result ≡ place_before order at) × (result ≤ order) }
{
    if at == 0 { order } else { at - 1 }
}

// The ring's place after `at`.
pub fn place_after(order: usize, at: usize) -> usize
    requires { at ≤ order }
    ensures { (result ≡ place_after order at) × (result ≤ order) }
{
    if at == order { 0 } else { at + 1 }
}
