// The lines of a listing that name no cell.
ghost use Rattle.model.specs.Listing.{analysis_name, head_line, left_line, refused_line, too_large};
ghost use Rattle.text_lines.specs.Page.{HasRoom, Written};

use super::Page;
use model::{AnalysisKind, VerifierResources};

impl<'a> Page<'a> {
    // The word of an analysis.
    fn put_name(&mut self, which: AnalysisKind)
        requires { HasRoom 9 self.old }
        ensures { Written 9 (analysis_name which) self.old self.new }
    {
        match which {
            AnalysisKind::Constant => self.put(b"constant"),
            AnalysisKind::IndexCheck => self.put(b"index"),
            AnalysisKind::Container => self.put(b"container"),
        }
    }

    // "Heads: analysis, n, s, pops."
    pub fn head_line(&mut self, which: AnalysisKind, n: u64, s: u64, pops: u64)
        requires { HasRoom 73 self.old }
        ensures { Written 73 (head_line which n s pops) self.old self.new }
    {
        self.put_name(which);
        self.put_spaced(n);
        self.put_spaced(s);
        self.put_spaced(pops);
        self.put(b"\n");
    }

    // "Last: bytes and work left"
    pub fn left_line(&mut self, left: VerifierResources)
        requires { HasRoom 47 self.old }
        ensures { Written 47 (left_line left) self.old self.new }
    {
        self.put(b"left ");
        self.put_decimal(left.bytes);
        self.put_spaced(left.work);
        self.put(b"\n");
    }

    // "Refusals print only `refused` and the number."
    pub fn refused_line(&mut self, number: u8)
        requires { HasRoom 29 self.old }
        ensures { Written 29 (refused_line number) self.old self.new }
    {
        self.put(b"refused ");
        self.put_decimal(number as u64);
        self.put(b"\n");
    }

    // "`too large` alone"
    pub fn too_large(&mut self)
        requires { HasRoom 10 self.old }
        ensures { Written 10 too_large self.old self.new }
    {
        self.put(b"too large\n");
    }
}
