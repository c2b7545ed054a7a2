// What a look does to the marks.
ghost use Rattle.std.specs.Prelude.{◌≡◌, ℕ, ◌+◌, ◌<◌, ◌≤◌, ◌^◌, length, map};
ghost use Rattle.std.specs.List.{All};
ghost use Rattle.fib_union.specs.declared.retired.Progress.{Progress as Steps};
ghost use Rattle.fib_union.specs.Marks.{next_mark};
ghost use Rattle.fib_union.specs.inner.Fields.{mark_of, IsProgress, least_of, receded};

use crate::retired::Progress;

/// A look that found this word.
pub fn look_on(progress: Progress, word: u64, count: u32) -> Progress
    requires { IsProgress count progress }
    ensures kept { IsProgress count result }
    ensures marks { (i : ℕ) → i < count → mark_of i result ≡ next_mark word (mark_of i progress) }
{
    if word % 2 == 0 {
        return Progress {
            passed: count,
            met: count,
            word,
        };
    }
    Progress {
        passed: if word == progress.word {
            progress.passed
        } else {
            progress.met
        },
        met: count,
        word,
    }
}

/// How many of the oldest copies are passed for each worker.
pub fn least(progress: &[Progress], count: u32) -> u32
    ensures { result ≡ least_of count progress.now }
{
    let mut least = count;
    for worker in progress {
        if worker.passed < least {
            least = worker.passed;
        }
    }
    least
}

/// The oldest copies have left.
pub fn recede(progress: &mut [Progress], gone: u32)
    requires { All (λ (p : Steps). (gone ≤ p.passed) × (p.passed ≤ p.met)) progress.old }
    ensures { progress.new ≡ map (receded gone) progress.old }
{
    for worker in progress {
        worker.passed -= gone;
        worker.met -= gone;
    }
}
