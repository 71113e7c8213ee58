//! Models that examples and tests use.

/// Sequential consistency.
pub const SC: &[u8] = b"acyclic po|rf|fr|co as sc\n";

/// Coherence alone.
pub const COHERENCE: &[u8] = b"acyclic po-loc|rf|fr|co as coh\n";

/// A model of Power, after Alglave, Maranget and Tautschnig, Herding Cats, TOPLAS 36(2) 2014.
pub const POWER: &[u8] = b"\
\"Power\"\n\
let dp = addr | data\n\
let rdw = po-loc & (fre;rfe)\n\
let detour = po-loc & (coe;rfe)\n\
let ii0 = dp | rdw | rfi\n\
let ci0 = ctrlisync | detour\n\
let cc0 = dp | po-loc | ctrl | (addr;po)\n\
let rec ii = ii0 | ci | (ic;ci) | (ii;ii)\n\
and ic = ii | cc | (ic;cc) | (ii;ic)\n\
and ci = ci0 | (ci;ii) | (cc;ci)\n\
and cc = cc0 | ci | (ci;ic) | (cc;cc)\n\
let ppo = (ii & (R*R)) | (ic & (R*W))\n\
let lwfence = (lwsync \\ (W*R)) | (eieio & (W*W))\n\
let fence = sync | lwfence\n\
let hb = ppo | fence | rfe\n\
let prop-base = (fence | (rfe;fence));hb*\n\
let prop = (prop-base & (W*W)) | (com*;prop-base*;sync;hb*)\n\
acyclic po-loc | com as scperloc\n\
acyclic hb as thinair\n\
irreflexive fre;prop;hb* as observation\n\
acyclic co | prop as propagation\n";
