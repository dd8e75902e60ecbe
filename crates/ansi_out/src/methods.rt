// A terminal is made, resized, read and taken apart.
ghost use Rattle.std.specs.Prelude.{◌≡◌, ◌<◌, ◌≤◌, [], vec_capacity, MatchResult};
ghost use Rattle.width.specs.Widths.{table_cells};
ghost use Rattle.stream.specs.Law.{Shows};
ghost use Rattle.terminal.specs.Calls.{Call};
ghost use Rattle.terminal.specs.Outcomes.{Outcome};
ghost use Rattle.ansi_out.specs.Pages.{page_of, blank_page, Sizeless, Resized};
ghost use Rattle.ansi_out.specs.Still.{Still};

use crate::out::AnsiOut;
use crate::push::push_all;
use std::str;
use stream::cursor_column;
use terminal::{COST, Fault};
use width::Table;

impl AnsiOut {
    /// An empty terminal that sends into a Vec, which is cleared first. Where the width or the height is 0, that is fault 5,
    /// and the Vec comes back as it was.
    pub fn new(mut bytes: Vec<u8>, width: u16, height: u16) -> Result<AnsiOut, (Vec<u8>, Fault)>
        ensures { MatchResult result (λ s. (page_of s ≡ blank_page width height (vec_capacity bytes)) × (s.bytes.items ≡ []) × (0 < width) × (0 < height)) (λ e. (e.0 ≡ bytes) × Sizeless width height e.1) }
    {
        if width == 0 || height == 0 {
            return Err((bytes, Fault::Size));
        }
        bytes.clear();
        Ok(AnsiOut {
            bytes,
            width,
            height,
            line: 0,
            col: 0,
            work: 0,
        })
    }

    /// Another size: the bytes are read on lines of this width from here on. Where the width or the height is 0, that is
    /// fault 5, and nothing changes.
    pub fn set_size(&mut self, width: u16, height: u16) -> Result<(), Fault>
        ensures { MatchResult result (λ _. Resized width height self.old self.new) (λ fault. (self.new ≡ self.old) × Sizeless width height fault) }
    {
        if width == 0 || height == 0 {
            return Err(Fault::Size);
        }
        let sent = str::from_utf8(self.bytes.as_slice()).unwrap();
        let col = cursor_column::<Table>(sent, width);
        self.width = width;
        self.height = height;
        self.col = col;
        Ok(())
    }

    /// The bytes to be sent.
    pub fn bytes(&self) -> &[u8]
        ensures value { result.now ≡ self.now.bytes.items }
        ensures page { Shows table_cells result.now (page_of self.now) }
    {
        self.bytes.as_slice()
    }

    /// The Vec with the bytes to be sent.
    pub fn into_bytes(self) -> Vec<u8>
        ensures value { result ≡ self.bytes }
        ensures page { Shows table_cells result.items (page_of self) }
    {
        self.bytes
    }

    /// How many more bytes there is room for.
    pub fn left(&self) -> usize
        ensures { result ≡ (page_of self.now).left }
    {
        self.bytes.capacity() - self.bytes.len()
    }

    // Fault 1 where less is left than a call costs.
    pub(crate) fn check_left(&self, cost: usize) -> Result<(), Fault>
        ensures { MatchResult result (λ _. cost ≤ (page_of self.now).left) (λ f. (f ≡ Fault.Full) × ((page_of self.now).left < cost)) }
    {
        if self.left() < cost {
            return Err(Fault::Full);
        }
        Ok(())
    }

    // Sends the bytes of a call that leaves the cursor where it is, and counts its work.
    pub(crate) fn send(&mut self, bytes: &[u8], work: u64) -> Result<(), Fault>
        ghost call: { Call }
        requires { Still call bytes.now work }
        ensures { Outcome table_cells call (page_of self.old) result (page_of self.new) }
    {
        self.check_left(COST)?;
        push_all(&mut self.bytes, bytes);
        self.work += work;
        Ok(())
    }

    /// How many runs and clears were accepted.
    pub fn work(&self) -> u64
        ensures { result ≡ (page_of self.now).work }
    {
        self.work
    }
}
