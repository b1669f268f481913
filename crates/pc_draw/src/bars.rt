//! The bars of a script's picture: what each row of each lane shows, column by column.
//!
//! Up to 1,000 steps each has its own: on an axis of ticks several may stand in one column, and what lasts for no tick
//! is not shown. Of more steps a column is counted, by its steps or, on an axis of ticks, by its ticks.

use crate::lanes::{Lane, MOST_LANES, Scene};
use crate::layout::PictureLayout;
use crate::rows::{Edge, FIFTHS, LaneRow, ROWS, RowStrip, draw_strip, height_of};
use crate::step::{Answer, Deed, Step};
use pc_calls::{Event, Reply};
use pc_messages::Cpu;
use pc_pen::Canvas;

/// How many rows all lanes have.
const MOST_STRIPS: usize = MOST_LANES * ROWS.len();

/// What happened at a CPU in one column, or in one step. What goes on lasts a step, or for some ticks.
#[derive(Clone, Copy)]
struct Tally {
    /// In how many steps, or ticks, a thread ran.
    busy: u64,
    /// The thread that ran last.
    thread: u32,
    /// Whether another one ran before it.
    is_mixed: bool,
    /// The most threads that waited there.
    waits: u32,
    /// The most items in the queue.
    items: u32,
    /// In how many steps, or ticks, nobody ran there while threads waited.
    idle: u64,
    /// The most threads that waited anywhere meanwhile.
    elsewhere: u32,
    /// Whether the agent slept for some of it.
    is_asleep: bool,
    posts: u32,
    deltas: u32,
    moves: u32,
    refusals: u32,
}

/// A column in which nothing happened.
const NOTHING: Tally = Tally {
    busy: 0,
    thread: 0,
    is_mixed: false,
    waits: 0,
    items: 0,
    idle: 0,
    elsewhere: 0,
    is_asleep: false,
    posts: 0,
    deltas: 0,
    moves: 0,
    refusals: 0,
};

/// A row that shows nothing yet.
const BLANK: RowStrip = RowStrip {
    value: 0,
    line: 0,
    place: 0,
    most: 0,
    least_or_sum: 0,
};

/// What a row shows in a column: a value, which lasts as long as it is the same, and a count for its title.
#[derive(Clone, Copy)]
struct Shown {
    value: u32,
    most: u32,
}

/// The bars so far.
#[derive(Drop)]
pub(crate) struct Bars<'t> {
    layout: PictureLayout<'t>,
    strips: [RowStrip; MOST_STRIPS],
    tallies: [Tally; MOST_LANES],
    /// The column that is being counted, its steps so far, and its first and last line.
    column: u32,
    steps: u32,
    first: u32,
    last: u32,
    /// On an axis of ticks, how many the last step is behind the first.
    behind: u64,
}

/// A count as it is shown: itself, or where a column is of several steps the height of its bar.
fn value_of(count: u32, is_dense: bool) -> u32 {
    if is_dense { height_of(count) } else { count }
}

/// Something of which there is a count.
fn counted(count: u32, is_dense: bool) -> Shown {
    Shown {
        value: value_of(count, is_dense),
        most: count,
    }
}

/// Something that is shown only where a column is of several steps.
fn counted_if(count: u32, is_dense: bool) -> Shown {
    if is_dense {
        counted(count, true)
    } else {
        Shown { value: 0, most: 0 }
    }
}

/// Something that is shown or not.
fn shown_if(is_shown: bool, most: u32) -> Shown {
    Shown {
        value: if is_shown { 1 } else { 0 },
        most,
    }
}

impl Tally {
    /// Counts what goes on at the CPU, for so many steps or ticks.
    fn count(&mut self, lane: &Lane, elsewhere: u32, length: u64) {
        match lane.runs {
            Some(thread) => {
                if self.busy > 0 && self.thread != thread {
                    self.is_mixed = true;
                }
                self.thread = thread;
                self.busy = self.busy.saturating_add(length);
            }
            None => {
                if elsewhere > 0 {
                    self.idle = self.idle.saturating_add(length);
                    self.elsewhere = self.elsewhere.max(elsewhere);
                }
            }
        }
        self.waits = self.waits.max(lane.waits);
        self.items = self.items.max(lane.items);
        self.is_asleep |= lane.is_asleep;
    }

    /// Who ran: a thread that did all of the column's length, or the busy fifths of it, rounded.
    fn runs(&self, length: u64) -> Shown {
        if self.busy == 0 {
            return Shown { value: 0, most: 0 };
        }
        if self.busy >= length && !self.is_mixed {
            let value = self.thread.saturating_add(FIFTHS + 1);
            return Shown { value, most: 0 };
        }
        let most = u64::from(FIFTHS);
        let doubled = self
            .busy
            .saturating_mul(2)
            .saturating_mul(most)
            .saturating_add(length);
        let fifths = doubled
            .checked_div(length.saturating_mul(2))
            .unwrap_or(most);
        Shown {
            value: u32::try_from(fifths.clamp(1, most)).unwrap_or(FIFTHS),
            most: 0,
        }
    }

    /// What a row shows of a column of so many steps, or ticks.
    fn shown(&self, row: LaneRow, length: u64, is_dense: bool) -> Shown {
        match row {
            LaneRow::Asleep => shown_if(self.is_asleep, 0),
            LaneRow::Runs => self.runs(length),
            LaneRow::Idle => shown_if(
                self.idle > 0 && self.idle.saturating_mul(2) >= length,
                self.elsewhere,
            ),
            LaneRow::Waits => counted(self.waits, is_dense),
            LaneRow::Queue => counted(self.items, is_dense),
            LaneRow::Posts => counted_if(self.posts, is_dense),
            LaneRow::Deltas => counted_if(self.deltas, is_dense),
            LaneRow::Moves => counted_if(self.moves, is_dense),
            LaneRow::Refusals => counted_if(self.refusals, is_dense),
        }
    }
}

impl<'t> Bars<'t> {
    /// Before the first step.
    pub(crate) fn new(layout: PictureLayout<'t>) -> Bars<'t> {
        Bars {
            layout,
            strips: [BLANK; MOST_STRIPS],
            tallies: [NOTHING; MOST_LANES],
            column: 0,
            steps: 0,
            first: 0,
            last: 0,
            behind: 0,
        }
    }

    /// Goes on to a step that is drawn, up to which this went on, and draws the bars that end before it.
    pub(crate) fn reach(&mut self, index: u32, scene: &Scene, canvas: &mut Canvas) {
        let column = self.layout.column_of(index);
        let behind = self.layout.behind(index);
        if self.layout.counts_ticks() {
            self.pass(column, behind, scene, canvas);
        } else if column != self.column || (self.steps > 0 && !self.layout.is_dense) {
            self.end_column(canvas);
            self.begin_column(column);
        }
        self.behind = behind;
    }

    /// Counts the ticks up to this one, which is of this column, and draws the bars that end before that.
    fn pass(&mut self, column: u32, behind: u64, scene: &Scene, canvas: &mut Canvas) {
        if column != self.column {
            self.end_ticks(scene, canvas);
            // What no step interrupts is one column, however wide.
            let between = self.column.saturating_add(1);
            if between < column {
                self.begin_column(between);
                self.first = self.last;
                let length = self.length();
                self.count(scene, length);
                self.end_column(canvas);
            }
            self.begin_column(column);
            self.behind = self.layout.ticks_before(column);
        }
        let length = behind.saturating_sub(self.behind);
        self.count(scene, length);
    }

    /// Counts the ticks up to the end of the column, and ends it.
    fn end_ticks(&mut self, scene: &Scene, canvas: &mut Canvas) {
        let end = self.layout.ticks_before(self.column.saturating_add(1));
        let length = end.saturating_sub(self.behind);
        self.count(scene, length);
        self.end_column(canvas);
    }

    /// Takes a step that is drawn, after which this goes on.
    pub(crate) fn take(&mut self, step: &Step, scene: &Scene) {
        if self.steps == 0 {
            self.first = step.number;
        }
        self.last = step.number;
        self.steps = self.steps.saturating_add(1);
        if !self.layout.counts_ticks() {
            self.count(scene, 1);
        }
        self.count_step(step);
    }

    /// Draws the bars that last to the end, up to which this goes on.
    pub(crate) fn end(&mut self, scene: &Scene, canvas: &mut Canvas) {
        if self.steps > 0 {
            if self.layout.counts_ticks() {
                self.end_ticks(scene, canvas);
            } else {
                self.end_column(canvas);
            }
        }
        self.column = self.layout.columns;
        self.first = self.last;
        let edge = self.edge(self.layout.span);
        let mut place = 0usize;
        for lane in 0..self.layout.lanes {
            let cpu = self.layout.first_cpu.saturating_add(lane);
            for row in &ROWS {
                self.show(place, cpu, *row, Shown { value: 0, most: 0 }, &edge, canvas);
                place = place.saturating_add(1);
            }
        }
    }

    /// Begins to count a column.
    fn begin_column(&mut self, column: u32) {
        self.column = column;
        self.steps = 0;
        self.tallies = [NOTHING; MOST_LANES];
    }

    /// How many steps, or ticks, the column has that is being counted.
    fn length(&self) -> u64 {
        if self.layout.counts_ticks() {
            let end = self.layout.ticks_before(self.column.saturating_add(1));
            end.saturating_sub(self.layout.ticks_before(self.column))
        } else {
            u64::from(self.steps)
        }
    }

    /// Where a bar begins, or ends, at the column that is being counted, and so many ticks behind the first.
    fn edge(&self, behind: u64) -> Edge {
        Edge {
            column: self.column,
            line: self.first,
            behind,
        }
    }

    /// Counts what goes on for so many steps, or ticks.
    fn count(&mut self, scene: &Scene, length: u64) {
        if length == 0 {
            return;
        }
        let waits = scene.waits();
        let cpus = self.layout.cpus as usize;
        let mut cpu = 0usize;
        for tally in self.tallies.iter_mut() {
            if cpu < cpus {
                tally.count(&scene.lane(cpu), waits, length);
            }
            cpu = cpu.saturating_add(1);
        }
    }

    /// Counts what the step itself did.
    fn count_step(&mut self, step: &Step) {
        match step.deed {
            Deed::Event(_) | Deed::Mend { .. } => {}
            Deed::Enclave(_) | Deed::Other => return,
        }
        match step.answer {
            Answer::Event(Reply::Posted(posted)) => {
                if let Some(tally) = self.tallies.get_mut(posted.queue.index() as usize) {
                    tally.posts = tally.posts.saturating_add(1);
                }
            }
            Answer::Event(Reply::Done) => self.count_delta(&step.deed),
            Answer::Event(Reply::Associated { queue, .. }) => self.count_move(queue),
            Answer::Event(Reply::Committed { cpu, .. }) => {
                // A thread is committed where its home is, but where it was stolen to mend the CPU.
                if let Some(home) = step.home
                    && home.index() != cpu.index()
                {
                    self.count_move(cpu);
                }
            }
            Answer::Refused(_) => {
                let cpu = step.lane();
                if let Some(tally) = self.tallies.get_mut(cpu) {
                    tally.refusals = tally.refusals.saturating_add(1);
                }
            }
            Answer::Event(
                Reply::Published { .. }
                | Reply::Consumed { .. }
                | Reply::Answered { .. }
                | Reply::Refused(_),
            )
            | Answer::Opened
            | Answer::Told => {}
        }
    }

    /// An agent took in a delta, if that was the command.
    fn count_delta(&mut self, deed: &Deed) {
        if let Deed::Event(Event::Deliver { cpu, .. }) = deed
            && let Some(tally) = self.tallies.get_mut(cpu.index() as usize)
        {
            tally.deltas = tally.deltas.saturating_add(1);
        }
    }

    /// A thread came to a queue.
    fn count_move(&mut self, queue: Cpu) {
        if let Some(tally) = self.tallies.get_mut(queue.index() as usize) {
            tally.moves = tally.moves.saturating_add(1);
        }
    }

    /// Ends the column: draws each bar that does not go on in it.
    fn end_column(&mut self, canvas: &mut Canvas) {
        let length = self.length();
        let is_dense = self.layout.is_dense;
        let edge = if self.layout.counts_ticks() {
            self.edge(self.layout.ticks_before(self.column))
        } else {
            self.edge(self.behind)
        };
        let mut place = 0usize;
        for lane in 0..self.layout.lanes {
            let cpu = self.layout.first_cpu.saturating_add(lane);
            let tally = match self.tallies.get(cpu as usize) {
                Some(tally) => *tally,
                None => NOTHING,
            };
            for row in &ROWS {
                let shown = tally.shown(*row, length, is_dense);
                self.show(place, cpu, *row, shown, &edge, canvas);
                place = place.saturating_add(1);
            }
        }
    }

    /// A row shows this from there on.
    fn show(
        &mut self,
        place: usize,
        cpu: u32,
        row: LaneRow,
        shown: Shown,
        edge: &Edge,
        canvas: &mut Canvas,
    ) {
        let Some(strip) = self.strips.get_mut(place) else {
            return;
        };
        if strip.value == shown.value {
            strip.most = strip.most.max(shown.most);
            strip.least_or_sum = if row.adds_up() {
                strip.least_or_sum.saturating_add(shown.most)
            } else {
                strip.least_or_sum.min(shown.most)
            };
            return;
        }
        let old = *strip;
        *strip = RowStrip {
            value: shown.value,
            line: edge.line,
            place: edge.place(&self.layout),
            most: shown.most,
            least_or_sum: shown.most,
        };
        draw_strip(canvas, &self.layout, cpu, row, &old, edge);
    }
}
