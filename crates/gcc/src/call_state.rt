// Call state (44.068, 9.4.2): a half octet.
ghost use Rattle.std.specs.Prelude.{◌≡◌};
ghost use Rattle.gcc.specs.CallState.{number_of, state_of, read_of, written_of};

#[derive(Clone, Copy)]
pub enum State {
    U0,
    U1,
    U2sl,
    U3,
    U4,
    U5,
    U0p,
    U2wr,
    U2r,
    U2ws,
    U2sr,
    U2nc,
    Reserved,
}

#[derive(Clone, Copy)]
pub struct Reading {
    pub refusal: u8,
    pub state: State,
}

#[derive(Clone, Copy)]
pub struct Written {
    pub refusal: u8,
    pub half: u8,
}

// The number of a state in table 9.3; 12 stands for all that are reserved.
pub fn number_of(state: State) -> u8
    ensures { result ≡ number_of state }
{
    match state {
        State::U0 => 0,
        State::U1 => 1,
        State::U2sl => 2,
        State::U3 => 3,
        State::U4 => 4,
        State::U5 => 5,
        State::U0p => 6,
        State::U2wr => 7,
        State::U2r => 8,
        State::U2ws => 9,
        State::U2sr => 10,
        State::U2nc => 11,
        State::Reserved => 12,
    }
}

// The state with a number, or reserved.
pub fn state_of(number: u8) -> State
    ensures { result ≡ state_of number }
{
    match number {
        0 => State::U0,
        1 => State::U1,
        2 => State::U2sl,
        3 => State::U3,
        4 => State::U4,
        5 => State::U5,
        6 => State::U0p,
        7 => State::U2wr,
        8 => State::U2r,
        9 => State::U2ws,
        10 => State::U2sr,
        11 => State::U2nc,
        _ => State::Reserved,
    }
}

// Reads the half octet. Above 15 is 12.
pub fn read(half: u8) -> Reading
    ensures { result ≡ read_of half }
{
    if 15 < half {
        return Reading {
            refusal: 12,
            state: State::U0,
        };
    }
    Reading {
        refusal: 0,
        state: state_of(half),
    }
}

// Writes a state. Reserved is 12.
pub fn write(state: State) -> Written
    ensures { result ≡ written_of state }
{
    let number = number_of(state);
    if 11 < number {
        return Written {
            refusal: 12,
            half: 0,
        };
    }
    Written {
        refusal: 0,
        half: number,
    }
}
