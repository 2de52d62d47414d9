/// A case: the table that it belongs to, options, and a text.
#[derive(Clone, Copy)]
pub struct Case<'a> {
    pub table: &'a str,
    options: &'a str,
    pub text: &'a str,
}

impl<'a> Case<'a> {
    /// The case that a line says, if it says one.
    pub fn read(line: &'a str) -> Option<Case<'a>> {
        if line.starts_with('#') {
            return None;
        }
        let (head, text) = line.split_once(':')?;
        let (table, options) = head.split_once(' ').unwrap_or((head, ""));
        Some(Case {
            table,
            options,
            text: text.strip_prefix(' ').unwrap_or(text),
        })
    }

    /// The number of an option, if it is there.
    pub fn number(&self, name: &str) -> Option<u64> {
        for option in self.options.split(' ') {
            match option.split_once('=') {
                Some((found, number)) if found == name => return number.parse::<u64>().ok(),
                _ => {}
            }
        }
        None
    }

    /// The number of an option up to 100,000, or what it is where it isn't there.
    pub fn size(&self, name: &str, otherwise: usize) -> usize {
        match self.number(name) {
            Some(number) => number.min(100_000) as usize,
            None => otherwise,
        }
    }
}
