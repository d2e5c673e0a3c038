// How a block is dealt out into cells, rows and shards. The definitions stand in specs/, their laws in proofs/; there is no code here.
#![tactic(auto)]
