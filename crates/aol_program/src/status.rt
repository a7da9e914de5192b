use aol_allocate::Placed;
use aol_flat::Flat;
use aol_level::Kept;
use aol_scatter::Field;

/// What ran: the model laid out, the worker of each instance, and the memory at the end.
#[derive(Drop)]
pub struct Ran {
    pub flat: Flat,
    pub placed: Placed,
    pub memory: Field<Kept>,
}

/// What the program ends with: the code, and what ran where a run came to its end.
#[derive(Drop)]
pub struct Status {
    pub code: u8,
    pub ran: Option<Ran>,
}
