// The refusals that calls give by themselves, with what each says. The others come from the lent state: those of the
// opening (1, 2, 3 and 20) and 4 to 10, of which `luma_busiest` gives 1, 2 and 10 by itself.
ghost use Rattle.std.specs.Prelude.{◌≡◌};

// A refusal: its number in the table of documents 01 and 02, and its place, 0 where they name none. The number stays a
// number: a feed gives the one that the lent words hold, and C may have written any (`FeedPost` of `capture`,
// `listed`).
#[derive(Clone, Copy, Debug, PartialEq, Eq)]
pub struct Refusal {
    pub number: u64,
    pub place: u64,
}

// The last number of the table.
pub const LAST_NUMBER: u64 = 28;

impl Refusal {
    // W or H is outside its range, H above 2W, or W above 4H
    pub const PICTURE_SIZE: Refusal = Refusal {
        number: 1,
        place: 0,
    };

    // d is outside 10,000 to 200,000
    pub const DISPLAY_TIME: Refusal = Refusal {
        number: 2,
        place: 0,
    };

    // there are more than 750 pictures
    pub const TOO_MANY_PICTURES: Refusal = Refusal {
        number: 10,
        place: 0,
    };

    // the capture has no unit
    pub const NO_PACKET: Refusal = Refusal {
        number: 12,
        place: 0,
    };

    // there is no picture
    pub const NO_PICTURE: Refusal = Refusal {
        number: 14,
        place: 0,
    };

    // a record has fewer than 64 bytes
    pub const SHORT_RECORD: Refusal = Refusal {
        number: 16,
        place: 0,
    };

    // a record has an edition that there is not
    pub const RECORD_EDITION: Refusal = Refusal {
        number: 17,
        place: 0,
    };

    // the rules do not allow the record
    pub const NOT_ALLOWED: Refusal = Refusal {
        number: 18,
        place: 0,
    };

    // the record has no such row, or the shelf no such record
    pub const NO_SUCH_ROW: Refusal = Refusal {
        number: 19,
        place: 0,
    };

    // the capture has no good packet
    pub const NO_GOOD_PACKET: Refusal = Refusal {
        number: 21,
        place: 0,
    };

    // the losses are not 1 to 750, or their lists are not all so long
    pub const LOSS_LISTS: Refusal = Refusal {
        number: 22,
        place: 0,
    };

    // a probability is not within 0 to 1
    pub const NO_PROBABILITY: Refusal = Refusal {
        number: 23,
        place: 0,
    };

    // the gaps of a run are more than 15
    pub const LONG_GAPS: Refusal = Refusal {
        number: 24,
        place: 0,
    };

    // the rows are none or above 4,096, or their lists are not equally long
    pub const RTP_LISTS: Refusal = Refusal {
        number: 25,
        place: 0,
    };

    // the passage ends before it starts, or after the whole pictures
    pub const NO_PASSAGE: Refusal = Refusal {
        number: 26,
        place: 0,
    };

    // the shelf is not laid out as one
    pub const SHELF_LAYOUT: Refusal = Refusal {
        number: 27,
        place: 0,
    };

    // the capture ends inside its header or a frame, with so many bytes fed
    pub fn capture_unfinished(fed: u64) -> Refusal
        ensures { result ≡ record { number = 11; place = fed } }
    {
        Refusal {
            number: 11,
            place: fed,
        }
    }

    // the luma ends inside a picture, with so many bytes fed
    pub fn luma_unfinished(fed: u64) -> Refusal
        ensures { result ≡ record { number = 13; place = fed } }
    {
        Refusal {
            number: 13,
            place: fed,
        }
    }

    // too little is lent: so much is needed
    pub fn no_room(needed: u64) -> Refusal
        ensures { result ≡ record { number = 15; place = needed } }
    {
        Refusal {
            number: 15,
            place: needed,
        }
    }

    // the shelf holds a record that is refused, the first of them with this number
    pub fn refused_record(number: u64) -> Refusal
        ensures { result ≡ record { number = 28; place = number } }
    {
        Refusal {
            number: 28,
            place: number,
        }
    }
}
