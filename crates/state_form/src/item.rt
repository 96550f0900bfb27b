// What stands in a state's arrays, each kind in a fixed number of bytes: numbers of two bytes, jobs, places of the stack, jobs that wait.
ghost use Rattle.std.specs.Prelude.{◌≡◌, All, List, [], ◌∷◌, ◌++◌, ℕ, ◌+◌, ◌*◌, ◌≤◌, length, slice_index};
ghost use Rattle.std.proofs.lemmas.List.Edits.{sets};
ghost use Rattle.field.specs.Field.{two, pair_at};
ghost use Rattle.state_form.specs.Items.{each, items};
ghost use Rattle.state_form.specs.Form.{job_size, job_bytes, job_read, started_size, started_bytes, started_read, number_bytes, number_read};

use crate::{JOB_BYTES, STARTED_BYTES};
use field::{Place, Stored};
use rules::RESOURCES;
use station::Started;
use table::{Job, JobNo, Level};

/// What takes a fixed number of bytes in an array of them.
pub(crate) trait Item: Copy {
    ghost WIDTH: { ℕ };

    /// How many bytes it takes.
    const WIDTH: usize;

    /// Its bytes.
    ghost bytes: { Self → List ℕ };

    /// What is read at a place.
    ghost read: { List ℕ → ℕ → Self };

    /// Reads the one at a place.
    fn read_at(place: &Place) -> Self
        requires { place.now.at + WIDTH ≤ length place.now.bytes.now }
        ensures { result ≡ read place.now.bytes.now place.now.at };

    /// Stores its bytes at a place.
    fn put_at(&self, out: &mut [u8], at: usize)
        requires { at + WIDTH ≤ length out.old }
        ensures width { length (bytes self.now) ≡ WIDTH }
        ensures bytes { out.new ≡ sets out.old at (bytes self.now) };
}

/// Stores items one after the other.
pub(crate) fn put_items<T: Item>(list: &[T], out: &mut [u8], at: usize)
    requires { at + T.WIDTH * length list.now ≤ length out.old }
    ensures widths { All (λ x. length (T.bytes x) ≡ T.WIDTH) list.now }
    ensures width { length (each T.bytes list.now) ≡ T.WIDTH * length list.now }
    ensures bytes { out.new ≡ sets out.old at (each T.bytes list.now) }
{
    let mut end = at;
    for item in list {
        item.put_at(out, end);
        end += T::WIDTH;
    }
}

/// Reads items one after the other, as many as there is room for.
pub(crate) fn read_items<T: Item>(bytes: &[u8], at: usize, list: &mut [T])
    requires { at + T.WIDTH * length list.old ≤ length bytes.now }
    ensures { list.new ≡ items T.read T.WIDTH (length list.old) bytes.now at }
{
    let mut next = at;
    for i in 0..list.len() {
        list[i] = T::read_at(&Place { bytes, at: next });
        next += T::WIDTH;
    }
}

impl Item for u16 {
    ghost WIDTH = { 2 };

    const WIDTH: usize = 2;

    ghost bytes = { two };

    ghost read = { pair_at };

    fn read_at(place: &Place) -> u16
        requires { place.now.at + 2 ≤ length place.now.bytes.now }
        ensures { result ≡ pair_at place.now.bytes.now place.now.at }
    {
        place.pair(0)
    }

    fn put_at(&self, out: &mut [u8], at: usize)
        requires { at + 2 ≤ length out.old }
        ensures width { length (two self.now) ≡ 2 }
        ensures bytes { out.new ≡ sets out.old at (two self.now) }
    {
        self.put(out, at);
    }
}

impl Item for JobNo {
    ghost WIDTH = { 1 };

    const WIDTH: usize = 1;

    ghost bytes = { number_bytes };

    ghost read = { number_read };

    fn read_at(place: &Place) -> JobNo
        requires { place.now.at + 1 ≤ length place.now.bytes.now }
        ensures { result ≡ number_read place.now.bytes.now place.now.at }
    {
        JobNo(place.byte(0))
    }

    fn put_at(&self, out: &mut [u8], at: usize)
        requires { at + 1 ≤ length out.old }
        ensures width { length (number_bytes self.now) ≡ 1 }
        ensures bytes { out.new ≡ sets out.old at (number_bytes self.now) }
    {
        self.0.put(out, at);
    }
}

impl Item for Job {
    ghost WIDTH = { job_size };

    const WIDTH: usize = JOB_BYTES;

    ghost bytes = { job_bytes };

    ghost read = { job_read };

    fn read_at(place: &Place) -> Job
        requires { place.now.at + job_size ≤ length place.now.bytes.now }
        ensures { result ≡ job_read place.now.bytes.now place.now.at }
    {
        let mut needs = [0; RESOURCES];
        read_items(place.bytes, place.at + 3, &mut needs);
        Job {
            level: Level(place.byte(0)),
            frame: place.pair(1),
            needs,
        }
    }

    fn put_at(&self, out: &mut [u8], at: usize)
        requires { at + job_size ≤ length out.old }
        ensures width { length (job_bytes self.now) ≡ job_size }
        ensures bytes { out.new ≡ sets out.old at (job_bytes self.now) }
    {
        self.level.0.put(out, at);
        self.frame.put(out, at + 1);
        put_items(&self.needs, out, at + 3);
    }
}

impl Item for Started {
    ghost WIDTH = { started_size };

    const WIDTH: usize = STARTED_BYTES;

    ghost bytes = { started_bytes };

    ghost read = { started_read };

    fn read_at(place: &Place) -> Started
        requires { place.now.at + started_size ≤ length place.now.bytes.now }
        ensures { result ≡ started_read place.now.bytes.now place.now.at }
    {
        let mut held = [0; RESOURCES];
        read_items(place.bytes, place.at + 1, &mut held);
        Started {
            job: JobNo(place.byte(0)),
            held,
        }
    }

    fn put_at(&self, out: &mut [u8], at: usize)
        requires { at + started_size ≤ length out.old }
        ensures width { length (started_bytes self.now) ≡ started_size }
        ensures bytes { out.new ≡ sets out.old at (started_bytes self.now) }
    {
        self.job.0.put(out, at);
        put_items(&self.held, out, at + 1);
    }
}
