// Talker priority (44.068, 9.4.9): a half octet.
ghost use Rattle.std.specs.Prelude.{◌≡◌};
ghost use Rattle.gcc.specs.Talker.{number_of, priority_of, read_of};

#[derive(Clone, Copy)]
pub enum Priority {
    Normal,
    Privileged,
    Emergency,
}

#[derive(Clone, Copy)]
pub struct Reading {
    pub refusal: u8,
    pub priority: Priority,
}

// The priority with a number of table 9.8. Those not used are normal.
pub fn priority_of(number: u8) -> Priority
    ensures { result ≡ priority_of number }
{
    match number {
        0 => Priority::Normal,
        1 => Priority::Privileged,
        2 => Priority::Emergency,
        _ => Priority::Normal,
    }
}

// Reads the half octet, its spare bit ignored. Above 15 is 12.
pub fn read(half: u8) -> Reading
    ensures { result ≡ read_of half }
{
    if 15 < half {
        return Reading {
            refusal: 12,
            priority: Priority::Normal,
        };
    }
    Reading {
        refusal: 0,
        priority: priority_of(half % 8),
    }
}

// The half octet that says a priority, its spare bit zero.
pub fn write(priority: Priority) -> u8
    ensures { result ≡ number_of priority }
{
    match priority {
        Priority::Normal => 0,
        Priority::Privileged => 1,
        Priority::Emergency => 2,
    }
}
