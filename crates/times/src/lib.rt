// Need and times of tasks and VCPUs: document 01, "Plans", with document 02, No. 3. There are only
// definitions here, in specs/, and laws, in proofs/; the code that finds a time is in `admission`.
#![tactic(auto)]
