use std::marker::Model;

/// A list of bytes.
#[derive(Drop)]
pub struct Text {
    bytes: Vec<u8>,
}

impl Model for Text {
    ghost use Rattle.std.specs.Prelude.{List, ℕ};

    ghost Value = { List ℕ };

    ghost view = { λ t. t.bytes.items };
}

impl Text {
    ghost use Rattle.std.specs.Prelude.{◌≡◌};

    pub fn of(items: Vec<u8>) -> Self
        ensures { result ≡ items.items }
    {
        Text { bytes: items }
    }

    pub fn as_slice(&self) -> &[u8]
        ensures { result.now ≡ self.now }
    {
        &self.bytes
    }
}

/// A list of readings.
#[derive(Drop)]
pub struct Readings {
    readings: Vec<i32>,
}

impl Model for Readings {
    ghost use Rattle.std.specs.Prelude.{List, ℤ};

    ghost Value = { List ℤ };

    ghost view = { λ r. r.readings.items };
}

impl Readings {
    ghost use Rattle.std.specs.Prelude.{◌≡◌};

    pub fn of(items: Vec<i32>) -> Self
        ensures { result ≡ items.items }
    {
        Readings { readings: items }
    }

    pub fn as_slice(&self) -> &[i32]
        ensures { result.now ≡ self.now }
    {
        &self.readings
    }
}
