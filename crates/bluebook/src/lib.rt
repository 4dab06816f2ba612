// Definitions alone: the layouts of CCSDS 727.0-B-5, in specs/.
#![tactic(auto)]
