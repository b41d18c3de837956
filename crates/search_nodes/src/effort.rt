//! What it costs to make machines again.

/// How much is done to make machines again.
#[derive(Clone, Copy)]
pub struct Effort {
    /// How many ticks were tried.
    tried: u64,
    /// By how many ticks machines were made again.
    again: u64,
}

impl Effort {
    /// Nothing was done.
    pub fn none() -> Self {
        Effort { tried: 0, again: 0 }
    }

    /// With one tick tried more.
    pub fn one_tried(self) -> Self {
        Effort {
            tried: self.tried.saturating_add(1),
            again: self.again,
        }
    }

    /// With a machine made again by so many ticks.
    pub fn made_by(self, ticks: usize) -> Self {
        Effort {
            tried: self.tried,
            again: self.again.saturating_add(ticks as u64),
        }
    }

    /// Whether more ticks were made again than tried.
    pub fn is_great(self) -> bool {
        self.again > self.tried
    }
}
