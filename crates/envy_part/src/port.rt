ghost use Rattle.std.specs.Prelude.{◌≡◌, List, Option, None, length};
ghost use Rattle.envy_bank.specs.Lanes.{row_from};
ghost use Rattle.envy_part.specs.Orders.{Order, Adds};
ghost use Rattle.envy_part.specs.Orders.Order.{Programs, Erases, Barrier};

/// What carries out orders on a part that is mapped into memory.
///
/// Nothing is asked of it but that it keeps to the row or the rows that it is lent: no clause says what they hold
/// afterwards, and whoever orders looks. A port returns nothing, so it has nothing to tell that could be believed.
pub trait Port {
    /// The orders that were given, the first of them first, where the port keeps them.
    ghost orders: { Self → Option (List Order) };

    /// Orders that a row become a page, of 256 bytes; each bit that the page sets is set in the row already. When it
    /// returns, the row reads as the part holds it.
    fn program(&mut self, row: &mut [u8; 256], page: &[u8; 256])
        ensures { Adds (Programs (row_from page.now)) (orders self.old) (orders self.new) };

    /// Orders that rows become all ones. When it returns, they read as the part holds them.
    fn erase(&mut self, rows: &mut [[u8; 256]])
        ensures long { length rows.new ≡ length rows.old }
        ensures ordered { Adds (Erases (length rows.old)) (orders self.old) (orders self.new) };

    /// Orders that what was stored in SRAM so far, this word last, is there before what is stored later.
    fn barrier(&mut self, word: &u64)
        ensures { Adds (Barrier word.now) (orders self.old) (orders self.new) };
}

/// The port of a program in C, which serves two calls in the manner of `write` and `read`.
///
/// The first brings the order: 256 bytes, a page, or one byte of ones, an erase. The second has it carried out, and
/// its buffer is the map itself: the row, or the rows. One byte of zeros is a barrier, which is carried out at once.
#[derive(Drop)]
pub struct IoPort {
    /// The number that tells one part from another.
    pub number: i32,
}

impl Port for IoPort {
    ghost orders = { λ _. None };

    fn program(&mut self, row: &mut [u8; 256], page: &[u8; 256]) {
        io::write_all(self.number, page);
        io::read_full(self.number, row);
    }

    fn erase(&mut self, rows: &mut [[u8; 256]]) {
        io::write_all(self.number, &[0xFF]);
        io::read_full(self.number, rows.as_flattened_mut());
    }

    fn barrier(&mut self, _word: &u64) {
        io::write_all(self.number, &[0]);
    }
}
