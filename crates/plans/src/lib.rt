// The register plan: the default one, the addresses that a plan has, and whether one opens.
#![tactic(auto)]

ghost use Rattle.std.specs.Prelude.{◌≡◌};
ghost use Rattle.plans.specs.Plan.{exists_at, plan_fits, default_plan};

// Document 01's register plan: the addresses that exist (bit n of the mask for address n), and those of CSR, FEEN and CNT.
#[derive(Clone, Copy)]
pub struct Plan {
    pub mask: u16,
    pub csr: u8,
    pub feen: u8,
    pub cnt: u8,
}

impl Plan {
    // The plan where the opener gives none.
    pub fn default_plan() -> Plan
        ensures { result ≡ default_plan }
    {
        Plan {
            mask: 0x07FF,
            csr: 0,
            feen: 2,
            cnt: 5,
        }
    }

    // Whether an address is in the mask.
    pub fn exists_at(self, address: u8) -> bool
        ensures { result ≡ exists_at self address }
    {
        if 16 <= address {
            return false;
        }
        self.mask >> address & 1 == 1
    }

    // Whether CSR, FEEN and CNT are three different addresses in the mask.
    pub fn fits(self) -> bool
        ensures { result ≡ plan_fits self }
    {
        let csr = self.exists_at(self.csr);
        let feen = self.exists_at(self.feen);
        let cnt = self.exists_at(self.cnt);
        let apart = (self.csr != self.feen) & ((self.csr != self.cnt) & (self.feen != self.cnt));
        csr & (feen & (cnt & apart))
    }
}
