//! What a script's picture shows of single steps: posts, deltas, moves of threads, refusals and crashes.
//!
//! Where a column is of several steps, only crashes and moves are shown here, and of each no more than
//! [`MOST_MOMENTS`], which lie over the whole width: words tell how many there are, and how many refused commands are
//! of no CPU. Moves and the others are counted in rows.

use crate::layout::PictureLayout;
use crate::step::{Answer, Deed, Reason, Sent, Step};
use pc_calls::{Event, Posted, Refusal, Reply};
use pc_messages::Cpu;
use pc_pen::{Canvas, Quoted, SMALL, arrow, bold_cross, hollow_cross, outline, stroke, words};
use pc_script::Line;
use std::fmt::Write;

/// The most crashes, and the most moves of threads, that are drawn one by one in a picture of many steps.
const MOST_MOMENTS: u32 = 500;

/// The style of a delta's line.
const THIN: &str = "stroke=\"#777\"";

/// The style of a post's tick.
pub(crate) const POST: &str = "stroke=\"#000\" stroke-width=\"2\"";

/// How many there are of something, and how many there were so far.
#[derive(Clone, Copy)]
struct EvenSample {
    all: u32,
    so_far: u32,
}

impl EvenSample {
    /// None was there so far.
    const fn of(all: u32) -> EvenSample {
        EvenSample { all, so_far: 0 }
    }

    /// Takes the next one, and answers whether it is drawn: all are, or as many as may be, evenly among all.
    fn takes(&mut self) -> bool {
        let before = self.drawn();
        self.so_far = self.so_far.saturating_add(1);
        self.all <= MOST_MOMENTS || self.drawn() > before
    }

    /// How many are drawn of those so far, where not all are.
    fn drawn(&self) -> u64 {
        u64::from(self.so_far)
            .saturating_mul(u64::from(MOST_MOMENTS))
            .checked_div(u64::from(self.all))
            .unwrap_or(0)
    }
}

/// What was shown so far.
#[derive(Drop)]
pub(crate) struct Moments<'t> {
    layout: PictureLayout<'t>,
    crashes: EvenSample,
    moves: EvenSample,
    /// How many refused commands were of no lane, where a column is of several steps.
    unplaced: u32,
}

/// Says a step's line, and ends the mark.
fn say_line(canvas: &mut Canvas, line: Line<'_>) {
    let number = line.number;
    let line = Quoted(line.text);
    let _ = write!(canvas, "line {number}: {line}");
    canvas.done();
}

/// Says why a command was refused.
fn say_reason(canvas: &mut Canvas, reason: Reason) {
    match reason {
        Reason::NoEnclave => canvas.add(b" NoEnclave"),
        Reason::HaveEnclave => canvas.add(b" HaveEnclave"),
        Reason::BadLimits => canvas.add(b" BadLimits"),
        Reason::Of(refusal) => say_refusal(canvas, refusal),
    }
}

/// Says the name of a refusal, and its argument, as it is replied.
fn say_refusal(canvas: &mut Canvas, refusal: Refusal) {
    let _ = match refusal {
        Refusal::Stale(now) => write!(canvas, " Stale {now}"),
        Refusal::Running(cpu) => {
            let cpu = cpu.index();
            write!(canvas, " Running {cpu}")
        }
        Refusal::NotYours(queue) => {
            let queue = queue.index();
            write!(canvas, " NotYours {queue}")
        }
        // A refusal without an argument is named as its variant is.
        Refusal::BadCpu
        | Refusal::UnknownThread
        | Refusal::Dead
        | Refusal::NotBlocked
        | Refusal::NotReady
        | Refusal::EmptyMask
        | Refusal::MaskTooWide
        | Refusal::OnForbiddenCpu
        | Refusal::BadLevel
        | Refusal::IdleCpu
        | Refusal::NamesSpent
        | Refusal::NumbersSpent
        | Refusal::QueueFull
        | Refusal::PostsSpent
        | Refusal::Pending
        | Refusal::Forbidden
        | Refusal::Busy
        | Refusal::TooMany
        | Refusal::NothingReady
        | Refusal::NothingToSteal
        | Refusal::NoDelta
        | Refusal::WireFault
        | Refusal::TooLate => write!(canvas, " {refusal:?}"),
    };
}

/// The index of the CPU whose agent crashed at a step.
fn crash_of(step: &Step) -> Option<u8> {
    let (Answer::Event(_), Deed::Event(event)) = (step.answer, step.deed) else {
        return None;
    };
    match event {
        Event::Crash { cpu } => Some(cpu.index()),
        _ => None,
    }
}

/// Whether a step is a crash in a lane.
fn is_crash(layout: &PictureLayout<'_>, step: &Step) -> bool {
    match crash_of(step) {
        Some(cpu) => layout.has_lane(u32::from(cpu)),
        None => false,
    }
}

/// Whether a CPU has a lane.
fn has_lane(layout: &PictureLayout<'_>, cpu: Cpu) -> bool {
    layout.has_lane(u32::from(cpu.index()))
}

/// Whether a step gives a thread another home, and one of the two homes has a lane.
fn is_move(layout: &PictureLayout<'_>, step: &Step) -> bool {
    match step.answer {
        Answer::Event(reply) => tells_move(layout, &reply, step.home),
        _ => false,
    }
}

/// Whether a thread of this home is told to have another one, and one of the two has a lane.
fn tells_move(layout: &PictureLayout<'_>, reply: &Reply, home: Option<Cpu>) -> bool {
    match (reply, home) {
        (Reply::Associated { queue, .. }, Some(home)) => {
            has_lane(layout, *queue) || has_lane(layout, home)
        }
        // A thread is committed where its home is, but where it was stolen to mend the CPU.
        (Reply::Committed { cpu, .. }, Some(home)) => {
            home.index() != cpu.index() && (has_lane(layout, *cpu) || has_lane(layout, home))
        }
        (Reply::Associated { .. } | Reply::Committed { .. }, None) => false,
        (
            Reply::Done
            | Reply::Posted(_)
            | Reply::Published { .. }
            | Reply::Consumed { .. }
            | Reply::Answered { .. }
            | Reply::Refused(_),
            _,
        ) => false,
    }
}

impl<'t> Moments<'t> {
    /// Before the first of these steps, which are drawn.
    pub(crate) fn new(layout: PictureLayout<'t>, steps: &[Step]) -> Moments<'t> {
        let mut crashes = 0u32;
        let mut moves = 0u32;
        for step in steps {
            if is_crash(&layout, step) {
                crashes = crashes.saturating_add(1);
            } else if is_move(&layout, step) {
                moves = moves.saturating_add(1);
            }
        }
        Moments {
            layout,
            crashes: EvenSample::of(crashes),
            moves: EvenSample::of(moves),
            unplaced: 0,
        }
    }

    /// Draws a step of this line. Deltas were sent so.
    pub(crate) fn take(
        &mut self,
        index: u32,
        line: Line<'_>,
        step: &Step,
        sent: &[Sent],
        canvas: &mut Canvas,
    ) {
        match (step.answer, step.deed) {
            (Answer::Refused(reason), _) => self.refusal(index, line, reason, step.lane(), canvas),
            (Answer::Event(reply), Deed::Event(event)) => match (event, reply) {
                (Event::Deliver { cpu, delta }, _) => {
                    if let Some(sent) = sent.get(usize::try_from(delta).unwrap_or(usize::MAX)) {
                        self.delta(index, line, cpu, sent, canvas);
                    }
                }
                _ => self.event(index, line, &event, &reply, step.home, canvas),
            },
            (Answer::Event(reply), Deed::Mend { .. }) => {
                self.mended(index, line, &reply, step.home, canvas);
            }
            (Answer::Event(_), Deed::Enclave(_) | Deed::Other)
            | (Answer::Opened | Answer::Told, _) => {}
        }
    }

    /// Says what was not drawn.
    pub(crate) fn end(&self, canvas: &mut Canvas) {
        if self.unplaced > 0 {
            let unplaced = self.unplaced;
            words(canvas, 560, 38, SMALL);
            let _ = write!(
                canvas,
                "refused commands that are of no CPU, and are not drawn: {unplaced}"
            );
            canvas.done();
        }
        let crashes = self.crashes.all;
        let moves = self.moves.all;
        if !self.layout.is_dense || crashes.max(moves) <= MOST_MOMENTS {
            return;
        }
        words(canvas, 440, 20, SMALL);
        let _ = write!(
            canvas,
            "{crashes} crashes and {moves} moves of threads: of more than {MOST_MOMENTS} so many are drawn, evenly"
        );
        canvas.done();
    }

    /// An event that was accepted, and the home that its thread had before it.
    fn event(
        &mut self,
        index: u32,
        line: Line<'_>,
        event: &Event,
        reply: &Reply,
        home: Option<Cpu>,
        canvas: &mut Canvas,
    ) {
        match (event, reply, home) {
            (_, Reply::Associated { thread, queue }, Some(home)) => {
                let is_steal = matches!(event, Event::Steal { .. });
                self.change_home(index, line, thread.index(), home, *queue, is_steal, canvas);
            }
            (_, Reply::Posted(posted), _) => self.post(index, line, posted, canvas),
            (_, Reply::Associated { .. }, None)
            | (
                _,
                Reply::Done
                | Reply::Committed { .. }
                | Reply::Published { .. }
                | Reply::Consumed { .. }
                | Reply::Answered { .. }
                | Reply::Refused(_),
                _,
            ) => {}
        }
    }

    /// A CPU that was mended, and the home that its thread had before it: it was stolen, where that was another one.
    fn mended(
        &mut self,
        index: u32,
        line: Line<'_>,
        reply: &Reply,
        home: Option<Cpu>,
        canvas: &mut Canvas,
    ) {
        match (reply, home) {
            (Reply::Committed { thread, cpu }, Some(home)) => {
                if home.index() != cpu.index() {
                    self.change_home(index, line, thread.index(), home, *cpu, true, canvas);
                }
            }
            _ => {}
        }
    }

    /// The line of a lane at this height in it; of a CPU that has none, the edge of the lanes.
    fn height_in(&self, cpu: Cpu, height: u32) -> u32 {
        self.layout.height_in(u32::from(cpu.index()), height)
    }

    /// Whether a CPU has a lane.
    fn has_lane(&self, cpu: Cpu) -> bool {
        has_lane(&self.layout, cpu)
    }

    /// A command that was refused.
    fn refusal(
        &mut self,
        index: u32,
        line: Line<'_>,
        reason: Reason,
        lane: usize,
        canvas: &mut Canvas,
    ) {
        let place = u32::try_from(lane).unwrap_or(u32::MAX);
        if self.layout.is_dense {
            if place >= self.layout.cpus {
                self.unplaced = self.unplaced.saturating_add(1);
            }
            return;
        }
        let y = if place >= self.layout.cpus {
            self.layout.top().saturating_sub(6)
        } else if self.layout.has_lane(place) {
            self.layout.height_in(place, 17)
        } else {
            return;
        };
        hollow_cross(canvas, self.layout.middle(index), y);
        let number = line.number;
        let line = Quoted(line.text);
        let _ = write!(canvas, "line {number}: {line}: refused");
        say_reason(canvas, reason);
        canvas.done();
    }

    /// Draws the crash that a step is, if it is one. Crashes come last, so that no arrow hides one.
    pub(crate) fn crash(&mut self, index: u32, step: &Step, canvas: &mut Canvas) {
        let Some(cpu) = crash_of(step) else {
            return;
        };
        if !self.has_lane(Cpu(cpu)) {
            return;
        }
        let is_drawn = self.crashes.takes();
        if self.layout.is_dense && !is_drawn {
            return;
        }
        bold_cross(
            canvas,
            self.layout.middle(index),
            self.height_in(Cpu(cpu), 17),
        );
        let number = step.number;
        let _ = write!(canvas, "crash {cpu}, line {number}");
        canvas.done();
    }

    /// A thread has another home.
    fn change_home(
        &mut self,
        index: u32,
        line: Line<'_>,
        thread: u32,
        home: Cpu,
        queue: Cpu,
        is_steal: bool,
        canvas: &mut Canvas,
    ) {
        if !self.has_lane(home) && !self.has_lane(queue) {
            return;
        }
        let is_drawn = self.moves.takes();
        if self.layout.is_dense && !is_drawn {
            return;
        }
        let half = if is_steal { 3 } else { 1 };
        let verb = if is_steal { "stolen" } else { "moved" };
        // A thread that stays where it is, as one that a new agent takes over from itself, has a short arrow.
        let is_same = home.index() == queue.index();
        arrow(
            canvas,
            self.layout.middle(index),
            self.height_in(home, if is_same { 18 } else { 34 }),
            self.height_in(queue, 34),
            half,
            thread,
        );
        let home = home.index();
        let queue = queue.index();
        let _ = write!(
            canvas,
            "t{thread} {verb} from queue {home} to queue {queue}, "
        );
        say_line(canvas, line);
    }

    /// An item was posted.
    fn post(&self, index: u32, line: Line<'_>, posted: &Posted, canvas: &mut Canvas) {
        if self.layout.is_dense || !self.has_lane(posted.queue) {
            return;
        }
        let x = self.layout.middle(index);
        stroke(
            canvas,
            x,
            self.height_in(posted.queue, 54),
            x,
            self.height_in(posted.queue, 61),
            POST,
        );
        say_line(canvas, line);
    }

    /// A delta was taken in that was sent so. Where the receiver has no lane, it is sent beyond the edge of the lanes.
    fn delta(&self, index: u32, line: Line<'_>, cpu: Cpu, sent: &Sent, canvas: &mut Canvas) {
        let is_received = self.has_lane(cpu);
        if self.layout.is_dense || (!is_received && !self.has_lane(sent.cpu)) {
            return;
        }
        let x = self.layout.middle(index);
        let y = self.height_in(cpu, 29);
        let from = sent.cpu.index();
        stroke(
            canvas,
            self.layout.middle_of(sent.step),
            self.height_in(sent.cpu, 29),
            x,
            y,
            THIN,
        );
        say_line(canvas, line);
        if !is_received {
            return;
        }
        let head = if from < cpu.index() {
            "l-3,-7h6z"
        } else if from > cpu.index() {
            "l-3,7h6z"
        } else {
            "l-7,-3v6z"
        };
        outline(canvas, x, y, head, "fill=\"#777\"");
        say_line(canvas, line);
    }
}
