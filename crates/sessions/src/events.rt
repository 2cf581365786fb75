use expr::Name;
use num_text::{Readings, Text};

/// What may happen at a hub. Slots are numbered from 0 to 15.
#[derive(Drop)]
pub enum Event {
    /// A session begins, whose interval is to be no wider than the budget.
    OpenSlot { slot: u8, budget: u128, query: Text },
    /// One more step towards the budget.
    StepSlot(u8),
    ShowSlot(u8),
    CloseSlot(u8),
    /// Readings, in scaled units, behind those of a series.
    Append { name: Name, xs: Readings },
    Save,
}
