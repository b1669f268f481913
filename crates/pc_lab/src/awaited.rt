//! For which CPUs threads wait.

/// The counts have so many binary digits: a load has at most 4,096 threads.
const DIGITS: usize = 13;

/// How many threads wait for each CPU.
///
/// A word has one binary digit of the counts of all CPUs. So the CPUs of a mask are counted together, by a carry from
/// each digit to the next, however many CPUs and masks there are.
#[derive(Clone, Copy)]
pub(crate) struct AwaitedCpus {
    /// The digits, from the lowest on.
    digits: [u64; DIGITS],
    /// The CPUs for which a thread waits.
    pub word: u64,
}

impl AwaitedCpus {
    /// No thread waits.
    pub(crate) const NONE: AwaitedCpus = AwaitedCpus {
        digits: [0; DIGITS],
        word: 0,
    };

    /// One thread more waits for the CPUs of a mask.
    pub(crate) fn add(&mut self, mask: u64) {
        let mut carried = mask;
        for digit in self.digits.iter_mut() {
            let both = *digit & carried;
            *digit ^= carried;
            carried = both;
        }
        self.word |= mask;
    }

    /// One thread less waits for the CPUs of a mask.
    pub(crate) fn remove(&mut self, mask: u64) {
        let mut borrowed = mask;
        let mut word = 0;
        for digit in self.digits.iter_mut() {
            let lacking = !*digit & borrowed;
            *digit ^= borrowed;
            borrowed = lacking;
            word |= *digit;
        }
        self.word = word;
    }
}
