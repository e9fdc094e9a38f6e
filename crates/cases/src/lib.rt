// No code: the starred cases of document 01 as one list, worked frames, walks and pairs of sections, and logs whose lists are judged.
#![tactic(auto)]
