// A justification as a list hands it over. No set width and no store is in it. Fixed places with a count, and no Vec or slice: C hands it over so.
#![tactic(auto)]

use theory::SUPPORTS;

#[repr(C)]
#[derive(Clone, Copy)]
pub struct Handed {
    pub consequent: u32,
    pub count: usize,
    pub supports: [u32; SUPPORTS],
}
