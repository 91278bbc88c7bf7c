// What a replay found: how much of a list was compared, and how much of that was equal.
#[derive(Clone, Copy)]
pub struct Tally {
    pub compared: usize,
    pub equal: usize,
}

impl Tally {
    // Writes it under the list's name.
    pub fn tell(self, name: &[u8]) {
        io::write_all(1, name);
        io::write_all(1, b": ");
        io::print_decimal(1, self.compared as u64);
        io::write_all(1, b" compared, ");
        io::print_decimal(1, self.equal as u64);
        io::write_all(1, b" equal\n");
    }
}
