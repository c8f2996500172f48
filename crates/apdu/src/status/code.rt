ghost use Rattle.std.specs.Prelude.{◌≡◌};
ghost use Rattle.apdu.specs.Lawful.{lawful};
ghost use Rattle.apdu.specs.Statuses.{status_of, done, wrong_length, conditions_not_met, no_current_file, wrong_data, file_not_found, wrong_parameters, past_the_end, unknown_instruction, unknown_class};

use crate::status::Status;

// Whether SW1 may open a status.
pub fn is_lawful(sw1: u8) -> bool
    ensures { result ≡ lawful sw1 }
{
    matches!(sw1, 0x62..=0x6b | 0x6d..=0x6f | 0x90..=0x9f)
}

impl Status {
    // The status of two bytes, where SW1 is lawful.
    pub fn new(sw1: u8, sw2: u8) -> Option<Status>
        ensures { result ≡ status_of sw1 sw2 }
    {
        if is_lawful(sw1) {
            Some(Status { sw1, sw2 })
        } else {
            None
        }
    }

    pub fn sw1(self) -> u8
        ensures { result ≡ self.sw1 }
    {
        self.sw1
    }

    pub fn sw2(self) -> u8
        ensures { result ≡ self.sw2 }
    {
        self.sw2
    }

    // 9000
    pub fn done() -> Status
        ensures { result ≡ done }
    {
        Status {
            sw1: 0x90,
            sw2: 0x00,
        }
    }

    // 6700
    pub fn wrong_length() -> Status
        ensures { result ≡ wrong_length }
    {
        Status {
            sw1: 0x67,
            sw2: 0x00,
        }
    }

    // 6985
    pub fn conditions_not_met() -> Status
        ensures { result ≡ conditions_not_met }
    {
        Status {
            sw1: 0x69,
            sw2: 0x85,
        }
    }

    // 6986
    pub fn no_current_file() -> Status
        ensures { result ≡ no_current_file }
    {
        Status {
            sw1: 0x69,
            sw2: 0x86, // no current elementary file
        }
    }

    // 6A80
    pub fn wrong_data() -> Status
        ensures { result ≡ wrong_data }
    {
        Status {
            sw1: 0x6a,
            sw2: 0x80,
        }
    }

    // 6A82
    pub fn file_not_found() -> Status
        ensures { result ≡ file_not_found }
    {
        Status {
            sw1: 0x6a,
            sw2: 0x82,
        }
    }

    // 6A86
    pub fn wrong_parameters() -> Status
        ensures { result ≡ wrong_parameters }
    {
        Status {
            sw1: 0x6a,
            sw2: 0x86, // incorrect P1 P2
        }
    }

    // 6B00
    pub fn past_the_end() -> Status
        ensures { result ≡ past_the_end }
    {
        Status {
            sw1: 0x6b,
            sw2: 0x00,
        }
    }

    // 6D00
    pub fn unknown_instruction() -> Status
        ensures { result ≡ unknown_instruction }
    {
        Status {
            sw1: 0x6d,
            sw2: 0x00,
        }
    }

    // 6E00
    pub fn unknown_class() -> Status
        ensures { result ≡ unknown_class }
    {
        Status {
            sw1: 0x6e,
            sw2: 0x00,
        }
    }
}
