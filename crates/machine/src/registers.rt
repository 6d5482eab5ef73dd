// The eight registers of a running script and its next line, by value.
ghost use Rattle.machine.specs.Machine.{further, put, start, value_in};
ghost use Rattle.std.specs.Prelude.{◌≡◌};

use script::REGISTERS;

// A register that is not there holds 0 and takes no value, since rows from elsewhere may name any.
#[derive(Clone, Copy)]
pub struct Registers {
    values: [u64; REGISTERS],
    next: usize,
}

impl Registers {
    // As a script begins: all 0, at the first line.
    pub fn new() -> Registers
        ensures { result ≡ start }
    {
        Registers {
            values: [0; REGISTERS],
            next: 0,
        }
    }

    pub fn next_line(self) -> usize
        ensures { result ≡ self.next }
    {
        self.next
    }

    pub fn get(self, register: u64) -> u64
        ensures { result ≡ value_in self register }
    {
        let values = self.values;
        if register < REGISTERS as u64 {
            values[register as usize]
        } else {
            0
        }
    }

    pub fn set(self, register: u64, value: u64) -> Registers
        ensures { result ≡ put self register value }
    {
        let mut values = self.values;
        if register < REGISTERS as u64 {
            values[register as usize] = value;
        }
        Registers {
            values,
            next: self.next,
        }
    }

    // So many lines further on.
    pub fn advance(self, lines: u64) -> Registers
        ensures { result ≡ further self lines }
    {
        let values = self.values;
        Registers {
            values,
            next: self.next.saturating_add(lines as usize),
        }
    }
}
