// The page on standard output, as document 01, section 8 lays it out.
use crate::page::Page;
use crate::text::Word;
use std::fmt;

fn write_registers<W: fmt::Write>(regs: &[u32; 16], f: &mut fmt::Formatter<W>) -> fmt::Result {
    for row in 0usize..4 {
        let first = 4 * row;
        write!(f, "r{first:02}")?;
        for word in &regs[first..first + 4] {
            let word = Word(*word);
            write!(f, "{word}")?;
        }
        writeln!(f)?;
    }
    Ok(())
}

impl fmt::Display for Page {
    fn fmt<W: fmt::Write>(&self, f: &mut fmt::Formatter<W>) -> fmt::Result {
        let shown = Word(self.shown);
        let cpsr = Word(self.cpsr);
        writeln!(f, "exit {}{shown}", self.exit)?;
        writeln!(f, "steps {}", self.steps)?;
        write_registers(&self.regs, f)?;
        writeln!(f, "cpsr{cpsr}")
    }
}
