//! Tests of the field, after Alglave, Maranget and Tautschnig, Herding Cats, TOPLAS 36(2) 2014.

/// `MP+lwsync+addr`
pub const MP_LWSYNC_ADDR: &[u8] = b"\
PPC MP+lwsync+addr\n\
{\n\
0:r2=x; 0:r4=y;\n\
1:r2=y; 1:r5=x;\n\
}\n\
 P0           | P1            ;\n\
 li r1,1      | lwz r1,0(r2)  ;\n\
 stw r1,0(r2) | xor r3,r1,r1  ;\n\
 lwsync       | lwzx r4,r3,r5 ;\n\
 li r3,1      |               ;\n\
 stw r3,0(r4) |               ;\n\
exists (1:r1=1 /\\ 1:r4=0)\n\
";

/// `MP+lwsync+addr`, of which also an execution is asked for in which the first load reads 0.
pub const MP_EITHER: &[u8] = b"\
PPC MP+lwsync+addr+either\n\
{\n\
0:r2=x; 0:r4=y;\n\
1:r2=y; 1:r5=x;\n\
}\n\
 P0           | P1            ;\n\
 li r1,1      | lwz r1,0(r2)  ;\n\
 stw r1,0(r2) | xor r3,r1,r1  ;\n\
 lwsync       | lwzx r4,r3,r5 ;\n\
 li r3,1      |               ;\n\
 stw r3,0(r4) |               ;\n\
exists (1:r4=0)\n\
";

/// `IRIW+syncs`
pub const IRIW_SYNCS: &[u8] = b"\
PPC IRIW+syncs\n\
{\n\
0:r2=x;\n\
1:r2=x; 1:r4=y;\n\
2:r2=y;\n\
3:r2=y; 3:r4=x;\n\
}\n\
 P0           | P1           | P2           | P3           ;\n\
 li r1,1      | lwz r1,0(r2) | li r1,1      | lwz r1,0(r2) ;\n\
 stw r1,0(r2) | sync         | stw r1,0(r2) | sync         ;\n\
              | lwz r3,0(r4) |              | lwz r3,0(r4) ;\n\
exists (1:r1=1 /\\ 1:r3=0 /\\ 3:r1=1 /\\ 3:r3=0)\n\
";

/// `LB+datas`
pub const LB_DATAS: &[u8] = b"\
PPC LB+datas\n\
{\n\
0:r2=x; 0:r4=y;\n\
1:r2=y; 1:r4=x;\n\
}\n\
 P0           | P1           ;\n\
 lwz r1,0(r2) | lwz r1,0(r2) ;\n\
 xor r3,r1,r1 | xor r3,r1,r1 ;\n\
 addi r3,r3,1 | addi r3,r3,1 ;\n\
 stw r3,0(r4) | stw r3,0(r4) ;\n\
exists (0:r1=1 /\\ 1:r1=1)\n\
";

/// `2+2W+lwsyncs`
pub const TWO_TWO_W_LWSYNCS: &[u8] = b"\
PPC 2+2W+lwsyncs\n\
{\n\
0:r2=x; 0:r4=y;\n\
1:r2=y; 1:r4=x;\n\
}\n\
 P0           | P1           ;\n\
 li r1,2      | li r1,2      ;\n\
 stw r1,0(r2) | stw r1,0(r2) ;\n\
 lwsync       | lwsync       ;\n\
 li r3,1      | li r3,1      ;\n\
 stw r3,0(r4) | stw r3,0(r4) ;\n\
exists ([x]=2 /\\ [y]=2)\n\
";

/// `CoWR`
pub const COWR: &[u8] = b"\
PPC CoWR\n\
{\n\
0:r2=x;\n\
}\n\
 P0           ;\n\
 li r1,1      ;\n\
 stw r1,0(r2) ;\n\
 lwz r3,0(r2) ;\n\
exists (0:r3=0)\n\
";

/// `MP`
pub const MP: &[u8] = b"\
PPC MP\n\
{\n\
0:r2=x; 0:r4=y;\n\
1:r2=y; 1:r4=x;\n\
}\n\
 P0           | P1           ;\n\
 li r1,1      | lwz r1,0(r2) ;\n\
 stw r1,0(r2) | lwz r3,0(r4) ;\n\
 li r3,1      |              ;\n\
 stw r3,0(r4) |              ;\n\
exists (1:r1=1 /\\ 1:r3=0)\n\
";

/// A model that shows relations: of `preserved` what stands last counts, `com` is hidden, and the
/// others stand for no relation.
pub const SHOWING: &[u8] = b"\
\"Showing\"\n\
let com = rf | fr | co\n\
show com, addr | data as preserved, [W] ; po ; [W] as stores\n\
unshow com\n\
let preserved = lwsync | addr | data\n\
show preserved, W, nothing, rf | fr\n\
acyclic po-loc | com as coherence\n\
";

/// A store that nothing reads.
pub const STORE: &[u8] = b"\
PPC store\n\
{\n\
0:r2=x;\n\
}\n\
 P0           ;\n\
 li r1,1      ;\n\
 stw r1,0(r2) ;\n\
exists ([x]=1)\n\
";

/// A model that forbids each store.
pub const ONCE: &[u8] = b"empty co as once\n";

/// Models that forbid what `CoWR` asks for: by a walk with an identity, with a closure, with an
/// optional step; by a pair, by an event; and by what a negated check asks for.
pub const SMALL: [&[u8]; 6] = [
    b"irreflexive [R];fr;po-loc as walk\n",
    b"irreflexive po-loc;fr+ as closed\n",
    b"irreflexive po-loc;co?;fr as optional\n",
    b"empty fr & po-loc^-1 as pair\n",
    b"empty R as event\n",
    b"~empty rf & po-loc as negated\n",
];
