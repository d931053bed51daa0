//! When a simulation beside an old run is compared with it. That goes over all frames since the two may differ, so it is done seldom:
//! where it may succeed, where enough is left of the old run to gain by it, and as long as all comparisons cost a small part of a
//! simulation.

/// How many batches in a row have to be taken over behind a difference, before the first comparison.
const FIRST_CALM: u32 = 8;

/// By how much longer that has to be after each comparison that told no likeness.
const PATIENCE: u32 = 4;

/// How much all comparisons may cost at first: the part of the old run's instants that they go over.
const SHARE: usize = 8;

/// How many batches are taken over to pay for going over one instant more.
const BATCHES_FOR_ONE: u32 = 2;

/// How many directives, or instants in which both runs are the same, cost as much as an instant that is compared.
const LIGHT_IN_ONE: usize = 128;

/// What was taken over so far, and when to compare.
#[derive(Clone, Copy)]
pub(crate) struct Pace {
    /// The batches in a row that were taken over.
    calm: u32,
    /// How many of them are waited for.
    wait: u32,
    /// Whether the runs differed in some batch.
    is_apart: bool,
    /// How many instants comparisons may still go over.
    allowed: usize,
    /// The batches that were taken over and have not been counted in `allowed`.
    spare: u32,
    /// How many directives there are.
    directives: usize,
}

impl Pace {
    /// Before any batch, beside an old run of so many instants, where so many were settled already when the simulation began. These
    /// pay for comparisons as if they were taken over.
    pub(crate) fn new(olds: usize, directives: usize, settled: usize) -> Pace {
        let spared = settled / BATCHES_FOR_ONE as usize;
        Pace {
            calm: 0,
            wait: 1,
            is_apart: false,
            allowed: (olds.saturating_add(directives) / SHARE).saturating_add(spared),
            spare: 0,
            directives,
        }
    }

    /// How many instants a comparison goes over, behind so many, the later of which may differ.
    fn price(&self, instants: usize, later: usize) -> usize {
        later.saturating_add(instants.saturating_add(self.directives) / LIGHT_IN_ONE)
    }

    /// Whether to compare now, behind so many instants, the later of which may differ, where so many are left of the old run.
    pub(crate) fn is_due(&self, instants: usize, later: usize, left: usize) -> bool {
        let price = self.price(instants, later);
        self.calm >= self.wait && price <= self.allowed && price <= left
    }

    /// When a comparison begins. Should it tell no likeness, the next one has to wait longer; where the runs did not differ in any
    /// batch yet, until they do.
    pub(crate) fn compare(&mut self, instants: usize, later: usize) {
        self.allowed = self.allowed.saturating_sub(self.price(instants, later));
        self.wait = if self.is_apart {
            self.wait.saturating_mul(PATIENCE)
        } else {
            u32::MAX
        };
    }

    /// After a batch that was taken over.
    pub(crate) fn go_on(&mut self) {
        self.calm = self.calm.saturating_add(1);
        self.spare = self.spare.saturating_add(1);
        if self.spare >= BATCHES_FOR_ONE {
            self.spare = 0;
            self.allowed = self.allowed.saturating_add(1);
        }
    }

    /// After a batch that was looked up, or instants of the old run that were passed over.
    pub(crate) fn part(&mut self) {
        self.calm = 0;
        if !self.is_apart {
            self.is_apart = true;
            self.wait = FIRST_CALM;
        }
    }
}
