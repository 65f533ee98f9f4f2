// What is kept from line to line.
use crate::say::say_refused;
use layout::head::Head;
use refusal::Refusal;
use std::io;
use table::TableHead;

#[derive(Drop)]
pub struct Sheet {
    pub head: Head,
    pub items: [u64; 2048],
    pub units: [u16; 16384],
}

impl Sheet {
    fn fresh() -> Sheet {
        Sheet {
            head: Head::fresh(),
            items: [0; 2048],
            units: [0; 16384],
        }
    }

    // After a call: a refused one leaves the head as it was.
    pub fn told(&mut self, rt: &impl Print, answer: Result<Head, Refusal>) -> io::Result<()> {
        match answer {
            Ok(head) => self.head = head,
            Err(refusal) => say_refused(rt, refusal)?,
        }
        Ok(())
    }
}

// The table of names and values.
#[derive(Drop)]
pub struct Names {
    pub head: TableHead,
    pub table: [u8; TableHead::BYTES],
}

impl Names {
    fn fresh() -> Names {
        Names {
            head: TableHead::fresh(),
            table: [0; TableHead::BYTES],
        }
    }
}

// The sheet and the table, the units of the texts of the line at hand, and whether a call was made.
#[derive(Drop)]
pub struct State {
    pub sheet: Sheet,
    pub names: Names,
    pub text: [u16; 32768],
    pub touched: bool,
}

impl State {
    pub fn fresh() -> State {
        State {
            sheet: Sheet::fresh(),
            names: Names::fresh(),
            text: [0; 32768],
            touched: false,
        }
    }

    // A fresh sheet and table; what their heads do not count is not read.
    pub fn clear(&mut self) {
        self.sheet.head = Head::fresh();
        self.names.head = TableHead::fresh();
        self.touched = false;
    }
}
