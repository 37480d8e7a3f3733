// The list of pending jobs: an array of jobs in the order of the list, and a count.
#![tactic(auto)]

ghost use Rattle.std.specs.Prelude.{◌≡◌, [], Bool, true, cond, ◌≤◌, ◌<◌, take, drop};
ghost use Rattle.std.specs.List.{count_by, find};
ghost use Rattle.rules.specs.Words.{places, only};
ghost use Rattle.rules.specs.declared.Job.{Job};
ghost use Rattle.jobs.specs.Listed.{blank_job, is_earlier, goes_before, view, pack, Shaped, Sorted, is_first_in, insert_due, released_job, release_first, is_of, lead_of, lead_with, pending_of, first_in, late_in, newly_late_in};
ghost use Rattle.jobs.specs.Inside.{enter_at, slide_at, led, late_step};

use rules::{Job, Late, PLACES, Phase, Tick};

// Places at and past the count hold a blank job. That is no invariant of the type: `pack` lays any list out in one, also of more than 32 jobs, and theorems speak of any.
#[derive(Clone, Copy)]
pub struct JobList {
    pub jobs: [Job; PLACES],
    pub count: usize,
}

fn blank() -> Job
    ensures { result ≡ blank_job }
{
    Job {
        due: Tick(0),
        task: 0,
        phase: Phase::Delayed,
    }
}

// An earlier deadline.
pub fn is_earlier(job: Job, other: Job) -> bool
    ensures { result ≡ is_earlier job other }
{
    job.due < other.due
}

// The order of the list: whether a new job goes before one that is there. On equal deadlines it goes behind.
fn goes_before(job: Job, other: Job) -> bool
    ensures { result ≡ goes_before job other }
{
    is_earlier(job, other)
}

// ---- what changes a list, in place

// A new job walks in from the back: those that it goes before go one place back, up to the first that it doesn't go before. In a list that is in order that is its place.
fn enter(jobs: &mut [Job; PLACES], many: usize, job: Job)
    requires { (many < places) × Sorted (take many jobs.old) }
    ensures { jobs.new ≡ enter_at many job jobs.old }
{
    let mut place = many;
    for i in (0..many).rev() {
        let other = jobs[i];
        if !goes_before(job, other) {
            break;
        }
        jobs[place] = other;
        place = i;
    }
    jobs[place] = job;
}

// The first job leaves, and what is put in goes where the walk from the front stops: the others up to there go one place up.
fn slide<F: Fn(Job) -> bool>(jobs: &mut [Job; PLACES], many: usize, put: Job, stops: F)
    requires { (many ≤ places) × F.IsAlwaysCallable stops }
    ensures { (stop : Job → Bool) → ((x : Job) (b : Bool) → F.post stops x b → b ≡ stop x) → jobs.new ≡ slide_at stop many put 0 jobs.old }
{
    let mut place = 0;
    for i in 1..many {
        let next = jobs[i];
        if stops(next) {
            break;
        }
        jobs[place] = next;
        place = i;
    }
    jobs[place] = put;
}

// A job is released.
fn release(job: &mut Job)
    ensures { job.new ≡ released_job job.old }
{
    job.phase = Phase::Released;
}

impl JobList {
    // A list of no jobs.
    pub fn empty() -> JobList
        ensures { result ≡ pack [] }
    {
        JobList {
            jobs: [blank(); PLACES],
            count: 0,
        }
    }

    // A new job goes in at its place.
    pub fn insert(&mut self, job: Job)
        requires { Shaped self.old × Sorted (view self.old) × (self.old.count < places) }
        ensures { self.new ≡ pack (insert_due job (view self.old)) }
    {
        enter(&mut self.jobs, self.count, job);
        self.count += 1;
    }

    // The first job leaves: the others go one place up, and the new first one is released. It is given as it came.
    pub fn remove_first(&mut self) -> Option<Job>
        requires { Shaped self.old × (0 < self.old.count) }
        ensures { (self.new ≡ pack (release_first (drop 1 (view self.old)))) × (result ≡ lead_of (drop 1 (view self.old))) }
    {
        slide(&mut self.jobs, self.count, blank(), |_| false);
        self.count -= 1;
        self.release_first()
    }

    // The first job leaves and a new one comes: those that it doesn't go before have to go one place up, so it walks in from the front; the new first one is released. It is given as it came.
    pub fn replace_first(&mut self, job: Job) -> Option<Job>
        requires { Shaped self.old × (0 < self.old.count) }
        ensures { (self.new ≡ pack (release_first (insert_due job (drop 1 (view self.old))))) × (result ≡ lead_of (insert_due job (drop 1 (view self.old)))) }
    {
        slide(&mut self.jobs, self.count, job, |x| goes_before(job, x));
        self.release_first()
    }

    // The first job, where there is one, is released. It is given as it came.
    fn release_first(&mut self) -> Option<Job>
        ensures { (self.new ≡ led self.old) × (result ≡ lead_of (view self.old)) }
    {
        let first = self.front();
        if 0 < self.count {
            release(&mut self.jobs[0]);
        }
        first
    }

    // ---- what is asked of a list

    // The jobs that are pending.
    fn pending(&self) -> &[Job]
        requires { self.now.count ≤ places }
        ensures { result.now ≡ view self.now }
    {
        &self.jobs[..self.count]
    }

    // The job that leads.
    pub fn front(&self) -> Option<Job>
        ensures { result ≡ lead_of (view self.now) }
    {
        if self.count == 0 {
            return None;
        }
        Some(self.jobs[0])
    }

    // Whether a new job would be first.
    pub fn is_first(&self, job: Job) -> bool
        ensures { result ≡ is_first_in job (view self.now) }
    {
        if self.count == 0 {
            return true;
        }
        let other = self.jobs[0];
        goes_before(job, other)
    }

    // How many jobs of a task are pending from a place on.
    pub fn pending_from(&self, start: usize, task: u8) -> usize
        requires { Shaped self.now }
        ensures { result ≡ pending_of task (drop start (view self.now)) }
    {
        count_of(self.pending(), start, task)
    }

    // The first job of a task.
    pub fn first_of(&self, task: u8) -> Option<Job>
        requires { Shaped self.now }
        ensures { result ≡ lead_of (only (is_of task) (view self.now)) }
    {
        find_of(self.pending(), task)
    }

    // The first job; a blank one where there is none.
    pub fn first(&self) -> Job
        ensures { result ≡ first_in (view self.now) }
    {
        if self.count == 0 {
            return blank();
        }
        self.jobs[0]
    }

    // The newly late jobs, by a scan that stops at the first job that is not late: behind it none is. (By value: so a list that is only asked isn't copied where none is late.)
    fn late_from(self, last: Tick, at: Tick) -> Late
        requires { Shaped self × Sorted (view self) }
        ensures { result ≡ newly_late_in last at (view self) }
    {
        let mut late = none_late();
        for job in self.pending() {
            if !ticks::is_past(at, job.due) {
                break;
            }
            late = late_step(last, late, *job);
        }
        late
    }

    // The newly late jobs, in list order: late at this tick and not at the last one. Where the first job is not late there is no scan.
    pub fn newly_late(&self, last: Tick, at: Tick) -> Late
        requires { Shaped self.now × Sorted (view self.now) }
        ensures { result ≡ newly_late_in last at (view self.now) }
    {
        if self.count == 0 {
            return none_late();
        }
        let job = self.jobs[0];
        let due = job.due;
        if ticks::is_past(at, due) {
            let list = *self;
            return list.late_from(last, at);
        }
        none_late()
    }
}

// ---- by value, for a call that is made or not: where it is refused, what was given comes back as it was

// A new job goes in at its place.
pub fn insert(mut list: JobList, job: Job, accepted: bool) -> JobList
    requires { Shaped list × Sorted (view list) × (accepted ≡ true → list.count < places) }
    ensures { result ≡ pack (cond accepted (insert_due job (view list)) (view list)) }
{
    if accepted {
        list.insert(job);
    }
    list
}

// The first job leaves, and the new first one is released.
pub fn remove_first(mut list: JobList, accepted: bool) -> JobList
    requires { Shaped list × (accepted ≡ true → 0 < list.count) }
    ensures { result ≡ pack (cond accepted (release_first (drop 1 (view list))) (view list)) }
{
    if accepted {
        list.remove_first();
    }
    list
}

// The first job leaves, a new one goes in at its place, and the new first one is released.
pub fn replace_first(mut list: JobList, job: Job, accepted: bool) -> JobList
    requires { Shaped list × (accepted ≡ true → 0 < list.count) }
    ensures { result ≡ pack (cond accepted (release_first (insert_due job (drop 1 (view list)))) (view list)) }
{
    if accepted {
        list.replace_first(job);
    }
    list
}

// The job that leads; where the first job leaves, the one behind it.
pub fn front(list: JobList, leaves: bool) -> Option<Job>
    ensures { result ≡ lead_of (cond leaves (drop 1 (view list)) (view list)) }
{
    if !leaves {
        return list.front();
    }
    if list.count <= 1 {
        return None;
    }
    Some(list.jobs[1])
}

// The job that leads where a new one enters.
pub fn front_with(lead: Option<Job>, job: Job, enters: bool) -> Option<Job>
    ensures { result ≡ lead_with enters job lead }
{
    if !enters {
        return lead;
    }
    match lead {
        None => Some(job),
        Some(other) => {
            if goes_before(job, other) {
                return Some(job);
            }
            Some(other)
        }
    }
}

// How many of these jobs, from a place on, are of a task.
fn count_of(jobs: &[Job], start: usize, task: u8) -> usize
    ensures { result ≡ count_by (is_of task) (drop start jobs.now) }
{
    jobs.iter()
        .skip(start)
        .filter(|job| task == job.task)
        .count()
}

// The first of these jobs that is of a task.
fn find_of(jobs: &[Job], task: u8) -> Option<Job>
    ensures { result ≡ find (is_of task) jobs.now }
{
    jobs.iter().copied().find(|job| task == job.task)
}

// No late jobs.
pub fn none_late() -> Late
    ensures { result ≡ late_in [] }
{
    Late {
        count: 0,
        tasks: [0u8; PLACES],
    }
}

// A late job: its task goes behind those so far, unless it was late at the last call.
fn late_step(last: Tick, late: Late, job: Job) -> Late
    requires { late.count < places }
    ensures { result ≡ late_step last late job }
{
    let due = job.due;
    if ticks::is_past(last, due) {
        return late;
    }
    let n = late.count as usize;
    let mut tasks = late.tasks;
    tasks[n] = job.task;
    Late {
        count: late.count + 1,
        tasks,
    }
}
