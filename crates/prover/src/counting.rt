// The work of authors: what a goal decided adds to it, and its mean.
ghost use Rattle.std.specs.Prelude.{◌≡◌, ◌≤◌, ◌<◌, ◌/◌, ◌%◌};
ghost use Rattle.ipl.specs.Authors.{author_table};
ghost use Rattle.ipl.specs.Search.{most_turns};
ghost use Rattle.prover.specs.Work.{work_at, works_of, more_work, with_decided};

use super::{Authors, Mean, Work};

impl Work {
    // The work with a goal more, decided after so many questions; a number that is at its end stays.
    fn and_goal(self, questions: usize) -> Work
        requires { questions ≤ most_turns }
        ensures { result ≡ more_work self questions }
    {
        Work {
            questions: self.questions.saturating_add(questions as u32),
            verdicts: self.verdicts.saturating_add(1),
        }
    }

    // Questions per verdict, and what is left over. The caller has seen that there is a verdict.
    pub(super) fn mean(self) -> Mean
        requires { 0 < self.verdicts }
        ensures { result ≡ record { whole = self.questions / self.verdicts; remainder = self.questions % self.verdicts } }
    {
        Mean {
            whole: self.questions / self.verdicts,
            remainder: self.questions % self.verdicts,
        }
    }
}

impl Authors {
    // The author's goal was decided, after so many questions. The caller has seen that there is such an author.
    pub(super) fn count_decided(&mut self, author: u8, questions: usize)
        requires { (author < author_table) × (questions ≤ most_turns) }
        ensures { works_of self.new ≡ with_decided (works_of self.old) (record { author = author; questions = questions }) }
    {
        let at = usize::from(author);
        self.rows[at] = self.rows[at].and_goal(questions);
    }

    // The author's row; an empty one where there is no such author.
    pub fn work_of(&self, author: u8) -> Work
        ensures { result ≡ work_at (works_of self.now) author }
    {
        let at = usize::from(author);
        if at < ipl::AUTHORS {
            self.rows[at]
        } else {
            Work {
                questions: 0,
                verdicts: 0,
            }
        }
    }
}
