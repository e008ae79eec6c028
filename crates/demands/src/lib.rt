// The theorems over what the operations answer and leave: the demands, request by request, and the wrong programs that no promise allows. There is no code here.
#![tactic(auto)]
